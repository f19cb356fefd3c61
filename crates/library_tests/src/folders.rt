//! Disks that keep numbered files in folders.

use crate::disks::{Step, plays};
use crate::machine::{has_text, is_cleared, is_removed, is_unmade};

#[test]
fn a_disk_keeps_numbered_files(rt: HostRuntime) {
    let steps = [
        Step::HasLength(7, 0),
        Step::Reads(7, 0, b""),
        Step::Syncs,
        Step::IsFree("disk"),
        Step::Writes(7, 0, b"abcd"),
        Step::Writes(7, 2, b"xyz"),
        Step::Cuts(7, 4),
        Step::Syncs,
        Step::HasLength(7, 4),
        Step::Reads(7, 1, b"bxy"),
    ];
    assert!(rt; plays(&rt, "disk", &steps));
    assert!(rt; has_text(&rt, "disk/7", "abxy"));
    assert!(rt; is_removed(&rt, "disk/7") && is_unmade(&rt, "disk"));
}

#[test]
fn what_was_synced_is_read_by_another_disk(rt: HostRuntime) {
    let written = [
        Step::Writes(0, 0, b"abc"),
        Step::Writes(300, 0, b"defg"),
        Step::Syncs,
    ];
    assert!(rt; plays(&rt, "synced", &written));
    assert!(rt;
        plays(
            &rt,
            "synced",
            &[Step::HasLength(0, 3), Step::HasLength(300, 4)]
        )
    );
    assert!(rt; has_text(&rt, "synced/0", "abc"));
    assert!(rt; has_text(&rt, "synced/300", "defg"));
    assert!(rt; is_cleared(&rt, "synced"));
}

#[test]
fn journal_and_archive_keep_to_their_folders(rt: HostRuntime) {
    let journal = [
        Step::Writes(0, 0, b"mm"),
        Step::Writes(1, 0, b"@mx@"),
        Step::Syncs,
        Step::IsFree("test.archive"),
    ];
    let archive = [
        Step::Writes(0, 0, b"abc"),
        Step::Syncs,
        Step::HasLength(1, 0),
    ];
    assert!(rt; plays(&rt, "test.journal", &journal));
    assert!(rt; plays(&rt, "test.archive", &archive));
    assert!(rt; has_text(&rt, "test.journal/0", "mm"));
    assert!(rt; has_text(&rt, "test.archive/0", "abc"));
    assert!(rt; is_cleared(&rt, "test.journal") && is_cleared(&rt, "test.archive"));
}
