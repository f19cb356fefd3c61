//! To which files a sync of a disk comes.

use crate::disks::{Step, plays, plays_over};
use crate::machine::is_cleared;
use crate::refusing::{OneRefusing, has_refusing};

/// Whether steps of a disk over a folder are as they say, where the file of a path refuses each sync.
fn plays_beside(rt: &HostRuntime, folder: &str, path: &str, steps: &[Step]) -> bool {
    plays_over(rt, &OneRefusing::new(rt, path), folder, steps)
}

/// Whether the first sync of a disk comes to the file of a path, which it didn't write.
fn comes_first(rt: &HostRuntime, folder: &str, path: &str) -> bool {
    plays_beside(rt, folder, path, &[Step::FailsToSync])
}

/// Whether the first sync of a disk leaves out the file of a path.
fn leaves_out(rt: &HostRuntime, folder: &str, path: &str) -> bool {
    plays_beside(rt, folder, path, &[Step::Syncs])
}

#[test]
fn a_sync_comes_to_each_file(rt: HostRuntime) {
    if !has_refusing(&rt) {
        return;
    }
    let steps = [
        Step::Writes(1, 0, b"abc"),
        Step::Syncs,
        Step::Writes(9, 0, b"7"),
        Step::FailsToSync,
    ];
    assert!(rt; plays_beside(&rt, "synced files", "synced files/9", &steps));
    assert!(rt; comes_first(&rt, "synced files", "synced files/3"));
    assert!(rt; is_cleared(&rt, "synced files"));
}

#[test]
fn a_sync_comes_to_the_folder_where_a_file_was_made(rt: HostRuntime) {
    let steps = [
        Step::Writes(1, 0, b"abc"),
        Step::Syncs,
        Step::Writes(2, 0, b"abc"),
        Step::Clears("names"),
        Step::FailsToSync,
    ];
    assert!(rt; plays(&rt, "names", &steps));
}

#[test]
fn the_first_sync_leaves_old_generations_out(rt: HostRuntime) {
    if !has_refusing(&rt) {
        return;
    }
    // A root that tells the generation 2.
    let root = [
        Step::Writes(0, 0, b"ee"),
        Step::Writes(0, 2, &[b'm'; 4093]),
        Step::Syncs,
    ];
    assert!(rt; plays(&rt, "generations", &root));
    assert!(rt; leaves_out(&rt, "generations", "generations/4"));
    assert!(rt; comes_first(&rt, "generations", "generations/5"));
    assert!(rt; comes_first(&rt, "generations", "generations/8"));
    assert!(rt; leaves_out(&rt, "generations", "generations/9"));
    assert!(rt; is_cleared(&rt, "generations"));
}

#[test]
fn a_sync_comes_to_files_that_were_written_long_ago(rt: HostRuntime) {
    if !has_refusing(&rt) {
        return;
    }
    // At the latest where the handle of a file is given up for another's.
    let old = [
        Step::Writes(1, 0, b"abc"),
        Step::Syncs,
        Step::Writes(9, 0, b"7"),
        Step::FailsToWriteTen,
        Step::FailsToSync,
    ];
    // A sync that failed is asked again.
    let new = [
        Step::WritesTen,
        Step::Syncs,
        Step::Writes(1, 0, b"d"),
        Step::Writes(9, 0, b"7"),
        Step::FailsToSync,
        Step::FailsToSync,
    ];
    assert!(rt; plays_beside(&rt, "many", "many/9", &old));
    assert!(rt; plays_beside(&rt, "many", "many/9", &new));
    assert!(rt; is_cleared(&rt, "many"));
}
