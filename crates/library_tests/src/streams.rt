//! Files that are read and written in turn, the doors to them, and the clock.

use crate::machine::{has_text, is_free, is_linked, is_named, is_removed, is_written};
use outside_api::{Clock, Doors, Sink, Source};
use real_world::{FileSink, FileSource, FolderDoors, PartyFile, SystemClock};
use std::fs::File;

/// Whether a source gives these bytes next, of up to eight.
fn gives(source: &mut FileSource, bytes: &[u8]) -> bool {
    let mut buffer = [0u8; 8];
    match source.take(&mut buffer) {
        Ok(count) => &buffer[..count] == bytes,
        Err(_) => false,
    }
}

/// Whether a sink takes all of a piece.
fn takes(sink: &mut FileSink, piece: &[u8]) -> bool {
    sink.give(piece) == Ok(piece.len())
}

/// Whether the source of a file gives these bytes, and then its end.
fn gives_all(rt: &HostRuntime, path: &str, bytes: &[u8]) -> bool {
    match File::open(rt, path) {
        Ok(file) => {
            let mut source = FileSource::new(file);
            let is_given = gives(&mut source, bytes) && gives(&mut source, b"");
            drop(source);
            is_given
        }
        Err(error) => {
            drop(error);
            false
        }
    }
}

#[test]
fn a_source_gives_the_bytes_of_its_file(rt: HostRuntime) {
    assert!(rt; is_written(&rt, "source", "abc"));
    assert!(rt; gives_all(&rt, "source", b"abc"));
    assert!(rt; is_removed(&rt, "source"));
}

/// Whether the sink of a file takes two pieces.
fn takes_both(rt: &HostRuntime, path: &str, first: &[u8], second: &[u8]) -> bool {
    match File::create(rt, path) {
        Ok(file) => {
            let mut sink = FileSink::new(file);
            let are_taken = takes(&mut sink, first) && takes(&mut sink, second);
            drop(sink);
            are_taken
        }
        Err(error) => {
            drop(error);
            false
        }
    }
}

#[test]
fn a_sink_writes_its_file(rt: HostRuntime) {
    assert!(rt; takes_both(&rt, "sink", b"abc", b"d"));
    assert!(rt; has_text(&rt, "sink", "abcd"));
    assert!(rt; is_removed(&rt, "sink"));
}

/// Whether the doors bring a source of these bytes and a sink that takes a piece.
fn brings(
    doors: &mut FolderDoors<'_, HostRuntime>,
    name: &str,
    bytes: &[u8],
    piece: &[u8],
) -> bool {
    let Ok((mut source, mut sink)) = doors.come(name) else {
        return false;
    };
    let brought = gives(&mut source, bytes) && takes(&mut sink, piece);
    drop(source);
    drop(sink);
    brought
}

/// Whether the doors bring the files of a name once, and none of another name.
fn bring_once(rt: &HostRuntime, doors: &mut FolderDoors<'_, HostRuntime>) -> bool {
    brings(doors, "door", b"x", b"y")
        && has_text(rt, "door.out", "y")
        && !brings(doors, "door", b"x", b"y")
        && !brings(doors, "no such door", b"", b"")
}

/// Whether doors of one name bring its files once, and none of another name.
fn open_once(rt: &HostRuntime) -> bool {
    let Ok(mut doors) = FolderDoors::new(rt, rt.alloc(), &["door"]) else {
        return false;
    };
    let is_so = bring_once(rt, &mut doors);
    drop(doors);
    is_so
}

#[test]
fn doors_open_the_files_of_a_name(rt: HostRuntime) {
    assert!(rt; is_written(&rt, "door", "x") && is_written(&rt, "door.out", "old replies"));
    assert!(rt; open_once(&rt));
    assert!(rt; is_removed(&rt, "door") && is_removed(&rt, "door.out"));
}

/// Whether the doors of two names fail at the first, for a file of one of them.
fn fail_at(rt: &HostRuntime, first: &str, second: &str, name: &str, file: PartyFile) -> bool {
    let names = [first, second];
    let Ok(mut doors) = FolderDoors::new(rt, rt.alloc(), &names) else {
        return false;
    };
    let is_brought = brings(&mut doors, first, b"x", b"y");
    let is_told = match doors.first_fault() {
        Some(fault) => fault.name == name && fault.file == file,
        None => false,
    };
    drop(doors);
    !is_brought && is_told
}

#[test]
fn nothing_is_emptied_before_all_doors_are_open(rt: HostRuntime) {
    assert!(rt; is_written(&rt, "here", "x") && is_written(&rt, "here.out", "old replies"));
    assert!(rt; fail_at(&rt, "here", "gone", "gone", PartyFile::Script));
    assert!(rt; is_free(&rt, "gone.out"));
    assert!(rt; fail_at(&rt, "here.out", "here", "here", PartyFile::Replies));
    assert!(rt; is_free(&rt, "here.out.out"));
    assert!(rt; has_text(&rt, "here.out", "old replies"));
    assert!(rt; is_removed(&rt, "here") && is_removed(&rt, "here.out"));
}

#[test]
fn replies_go_to_no_file_of_another_name(rt: HostRuntime) {
    assert!(rt; is_written(&rt, "one", "x") && is_written(&rt, "one.out", "old replies"));
    assert!(rt; is_written(&rt, "two", "x") && is_linked(&rt, "two.out", "one"));
    assert!(rt; fail_at(&rt, "one", "two", "two", PartyFile::Replies));
    assert!(rt; is_removed(&rt, "two.out") && is_named(&rt, "one", "two.out"));
    assert!(rt; fail_at(&rt, "one", "two", "two", PartyFile::Replies));
    assert!(rt; has_text(&rt, "one", "x") && has_text(&rt, "one.out", "old replies"));
    assert!(rt; is_removed(&rt, "one") && is_removed(&rt, "one.out"));
    assert!(rt; is_removed(&rt, "two") && is_removed(&rt, "two.out"));
}

#[test]
fn the_clock_stands_after_2023(rt: HostRuntime) {
    assert!(rt; SystemClock::new(&rt).now() > 1_700_000_000);
}
