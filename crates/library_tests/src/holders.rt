//! Disks over a folder that another disk, or another program, has.

use crate::disks::{Step, are_so, is_refused, plays};
use crate::machine::{
    has_text, is_cleared, is_free, is_linked, is_made, is_named, is_removed, is_unmade,
};
use real_world::FolderDisk;

/// Whether a disk that is made over this folder reads these bytes of a file, and writes one more behind them.
fn works(rt: &HostRuntime, folder: &str, bytes: &[u8]) -> bool {
    let steps = [
        Step::Reads(0, 0, bytes),
        Step::Writes(0, bytes.len() as u64, b"w"),
        Step::Syncs,
    ];
    plays(rt, folder, &steps)
}

#[test]
fn one_disk_at_a_time_has_a_folder(rt: HostRuntime) {
    let steps = [
        Step::Writes(0, 0, b"abc"),
        Step::Syncs,
        Step::Refuses("held"),
        Step::Writes(0, 3, b"d"),
        Step::Syncs,
    ];
    assert!(rt; plays(&rt, "held", &steps));
    assert!(rt; works(&rt, "held", b"abcd"));
    assert!(rt; has_text(&rt, "held/0", "abcdw"));
    assert!(rt; is_cleared(&rt, "held"));
}

/// Whether a disk over a folder is refused while another has it, and works when that one has ended.
fn works_after(rt: &HostRuntime, folder: &str, first: FolderDisk<'_, HostRuntime>) -> bool {
    let Ok(mut second) = FolderDisk::new(rt, rt.alloc(), folder) else {
        drop(first);
        return false;
    };
    let is_refused = is_refused(&mut second);
    drop(first);
    let steps = [Step::HasLength(0, 3), Step::Writes(0, 3, b"d"), Step::Syncs];
    let works = is_refused && are_so(rt, &mut second, &steps);
    drop(second);
    works
}

/// Whether a disk that was refused works once the one that wrote has ended.
fn works_in_turn(rt: &HostRuntime, folder: &str) -> bool {
    let Ok(mut first) = FolderDisk::new(rt, rt.alloc(), folder) else {
        return false;
    };
    let is_written = are_so(rt, &mut first, &[Step::Writes(0, 0, b"abc"), Step::Syncs]);
    works_after(rt, folder, first) && is_written
}

#[test]
fn a_disk_that_was_refused_works_once_the_other_has_ended(rt: HostRuntime) {
    assert!(rt; works_in_turn(&rt, "after"));
    assert!(rt; has_text(&rt, "after/0", "abcd"));
    assert!(rt; is_cleared(&rt, "after"));
}

#[test]
fn a_folder_may_be_a_link_to_one(rt: HostRuntime) {
    let steps = [
        Step::Writes(0, 0, b"abc"),
        Step::Syncs,
        Step::Refuses("volume"),
        Step::Refuses("link"),
        Step::Writes(0, 3, b"d"),
        Step::Syncs,
    ];
    assert!(rt; is_made(&rt, "volume") && is_linked(&rt, "link", "volume"));
    assert!(rt; plays(&rt, "link", &steps));
    assert!(rt; works(&rt, "link", b"abcd") && works(&rt, "volume", b"abcdw"));
    assert!(rt; has_text(&rt, "volume/0", "abcdww"));
    assert!(rt; is_removed(&rt, "link") && is_cleared(&rt, "volume"));
}

#[test]
fn no_file_of_another_name_is_written(rt: HostRuntime) {
    assert!(rt; works(&rt, "own", b""));
    assert!(rt; is_linked(&rt, "own/1", "0") && is_named(&rt, "own/0", "own/2"));
    let steps = [
        Step::Reads(0, 0, b"w"),
        Step::FailsToWrite(0),
        Step::Reads(1, 0, b"w"),
        Step::FailsToWrite(1),
        Step::MakesFolder("own/3"),
        Step::FailsToWrite(3),
    ];
    assert!(rt; plays(&rt, "own", &steps));
    assert!(rt; has_text(&rt, "own/0", "w") && is_removed(&rt, "own/2"));
    assert!(rt; is_unmade(&rt, "own/3") && works(&rt, "own", b"w"));
    assert!(rt; is_cleared(&rt, "own"));
}

#[test]
fn a_folder_that_another_made_meanwhile_is_left_alone(rt: HostRuntime) {
    let steps = [
        Step::HasLength(0, 0),
        Step::Syncs,
        Step::MakesFolder("meanwhile"),
        Step::FailsToWrite(0),
    ];
    assert!(rt; plays(&rt, "meanwhile", &steps));
    assert!(rt; is_free(&rt, "meanwhile/0") && is_unmade(&rt, "meanwhile"));
}

#[test]
fn nothing_is_made_where_a_link_leads_nowhere(rt: HostRuntime) {
    assert!(rt; is_linked(&rt, "nowhere", "unmounted"));
    assert!(rt;
        plays(
            &rt,
            "nowhere",
            &[Step::HasLength(0, 0), Step::FailsToWrite(0)]
        )
    );
    assert!(rt; is_free(&rt, "unmounted") && is_removed(&rt, "nowhere"));
}
