//! Callers of the libraries that one may use by themselves, with ample memory.

ghost use Rattle.std.specs.Prelude.{◌≡◌, length, IfSome};
ghost use Rattle.disk_journal.specs.Images.{Committed};
ghost use Rattle.disk_journal.specs.Stands.{Stands, nothing};
ghost use Rattle.outside_api.specs.Disk.{Files};

use crate::calls::JOURNAL;
use archive_file::Archive;
use argument_files::named;
use depot_path::{DepotPath, FileSpec, Name, Pattern, Sequence, Text};
use depot_rows::forms::{Form, Shape};
use depot_rows::model::{Caller, FileArgument};
use depot_rows::protections::{Level, Protects, Who};
use depot_rows::records::{Change, CounterRecord, Op, Record};
use depot_rows::tables::Tables;
use depot_rows::views::{Mapped, View};
use disk_journal::{Journal, make_files};
use memory_world::MemoryDisk;
use named_files::Asker;
use outside_api::{Disk, Fetched};
use record_text::{print_record, read_record};
use row_reads::who_of;
use std::alloc::{AllocError, Global};

/// A path of a depot.
fn path_of(alloc: Global, text: &[u8]) -> Option<DepotPath> {
    DepotPath::read(alloc, text).ok()
}

/// Whether a pattern selects a path.
fn selects(alloc: Global, pattern: &[u8], path: &[u8]) -> Option<bool> {
    let path = path_of(alloc, path)?;
    let pattern = Pattern::read(alloc, pattern, false).ok()?;
    Some(pattern.matches(&path))
}

#[test]
fn a_pattern_selects_paths(rt: HostRuntime) {
    assert!(rt; selects(rt.alloc(), b"//depot/main/*.c", b"//depot/main/a.c") == Some(true));
    assert!(rt; selects(rt.alloc(), b"//depot/main/*.c", b"//depot/main/sub/a.c") == Some(false));
}

/// Lines of a text each.
fn lines_of(alloc: Global, texts: &[&[u8]]) -> Result<Vec<Text>, AllocError> {
    let mut lines = Vec::new(alloc);
    for text in texts {
        lines.push(Text::from_bytes(alloc, text)?)?;
    }
    Ok(lines)
}

/// Whether a view of two lines gives a file a client path.
fn has_client_path(alloc: Global, file: &[u8], path: &[u8]) -> Option<bool> {
    let file = path_of(alloc, file)?;
    let client = Name::read(alloc, b"ws1").ok()?;
    let lines = lines_of(
        alloc,
        &[
            b"//depot/main/... //ws1/...",
            b"-//depot/main/old/... //ws1/old/...",
        ],
    )
    .ok()?;
    let view = View::from_lines(alloc, &client, lines.as_slice()).ok()?;
    match view.to_client(alloc, &file).ok()? {
        Mapped::Nothing => Some(false),
        Mapped::At {
            path: found,
            rivals: _,
        } => {
            let text = found.print(alloc).ok()?;
            Some(text.as_bytes() == path)
        }
    }
}

#[test]
fn a_view_gives_files_their_client_paths(rt: HostRuntime) {
    let is_in = has_client_path(rt.alloc(), b"//depot/main/a.c", b"//ws1/a.c");
    assert!(rt; is_in == Some(true));
    let is_out = has_client_path(rt.alloc(), b"//depot/main/old/a.c", b"//ws1/old/a.c");
    assert!(rt; is_out == Some(false));
}

/// Whether a user of no group may open a file, where all may list all files and ann may write those of the main folder.
fn may_open(alloc: Global, user: &[u8], file: &[u8]) -> Option<bool> {
    let file = path_of(alloc, file)?;
    let who = Who {
        user: Name::read(alloc, user).ok()?,
        groups: Sequence::new(alloc),
        host: Name::read(alloc, b"hostA").ok()?,
    };
    let lines = lines_of(
        alloc,
        &[b"list user * * //...", b"write user ann * //depot/main/..."],
    )
    .ok()?;
    let protects = Protects::from_lines(alloc, lines.as_slice()).ok()?;
    Some(protects.may(&who, &file, Level(3)))
}

#[test]
fn protections_give_rights(rt: HostRuntime) {
    assert!(rt; may_open(rt.alloc(), b"ann", b"//depot/main/a.c") == Some(true));
    assert!(rt; may_open(rt.alloc(), b"bob", b"//depot/main/a.c") == Some(false));
}

/// Whether the form of a label is printed with another owner as it should be.
fn changes_owner(alloc: Global) -> Option<bool> {
    let form = Form::read(alloc, b"Label: rel1\nOwner: ann\n", Shape::Label).ok()?;
    let changed = form.with(alloc, "Owner", b"bob").ok()?;
    let text = changed.print(alloc).ok()?;
    Some(text.as_bytes() == b"Label:\trel1\n\nOwner:\tbob\n\n".as_slice())
}

#[test]
fn a_form_is_read_changed_and_printed(rt: HostRuntime) {
    assert!(rt; changes_owner(rt.alloc()) == Some(true));
}

/// The row of a counter.
fn counter(alloc: Global) -> Option<Record> {
    let name = Text::from_bytes(alloc, b"build").ok()?;
    Some(Record::Counter(CounterRecord { name, value: 7 }))
}

/// Whether the text of a row reads to the row.
fn is_read_again(alloc: Global) -> Option<bool> {
    let row = counter(alloc)?;
    let text = print_record(alloc, Op::Put, &row).ok()?;
    let (op, again, length) = read_record(alloc, text.as_bytes()).ok()?;
    Some(op == Op::Put && again == row && length == text.as_bytes().len())
}

#[test]
fn a_record_is_printed_and_read(rt: HostRuntime) {
    assert!(rt; is_read_again(rt.alloc()) == Some(true));
}

/// A journal of fresh files on an empty disk.
fn fresh_journal<D: Disk + Drop>(mut disk: D) -> Option<Journal<D>>
    requires { (files : Files) → D.says.seen disk files → length (files 0) ≡ 0 }
    ensures { IfSome result (λ journal. (was : Committed) × Stands D.says journal was nothing) }
{
    match make_files(&mut disk) {
        Ok(()) => Some(Journal::adopt(disk, 0, 0, 0)),
        Err(_) => None,
    }
}

/// Whether a journal gives the group that is committed, and nothing behind it.
fn gives_what_it_commits<D: Disk>(
    alloc: Global,
    journal: &mut Journal<D>,
    changes: &[Change],
) -> Option<bool>
    requires { (was : Committed) × Stands D.says journal.old was nothing }
{
    let prepared = journal.prepare(alloc, changes).ok()?;
    let _ = journal.commit(prepared).ok()?;
    let mut piece = [0; 100];
    let fetched = journal.fetch(0, 0, &mut piece).ok()?;
    let last = journal.fetch(0, 46, &mut [0]).ok()?;
    let (text, _) = piece.split_at(46);
    Some(fetched == Fetched::Bytes(46) && text == JOURNAL && last == Fetched::End)
}

/// Whether a journal in memory gives the group that puts a row.
fn gives_its_group(alloc: Global) -> Option<bool> {
    let row = counter(alloc)?;
    let changes = vec![in alloc; Change { op: Op::Put, row }].ok()?;
    let given = match fresh_journal(MemoryDisk::new(Vec::new(alloc))) {
        Some(mut journal) => gives_what_it_commits(alloc, &mut journal, changes.as_slice()),
        None => None,
    };
    drop(changes);
    given
}

#[test]
fn a_journal_gives_what_it_committed(rt: HostRuntime) {
    assert!(rt; gives_its_group(rt.alloc()) == Some(true));
}

/// Whether an archive gives what was stored in it.
fn gives_what_it_stored(alloc: Global) -> Option<bool> {
    let mut archive = Archive::adopt(MemoryDisk::new(Vec::new(alloc)), 0);
    let spot = archive.store(0, b"hello").ok()?;
    archive.keep(spot);
    let content = archive.read(alloc, spot).ok()?;
    Some(archive.used() == 5 && content.as_bytes() == b"hello".as_slice())
}

#[test]
fn an_archive_gives_what_it_stored(rt: HostRuntime) {
    assert!(rt; gives_what_it_stored(rt.alloc()) == Some(true));
}

/// Ann, in her workspace.
pub fn ann(alloc: Global) -> Option<Caller> {
    Some(Caller {
        user: Name::read(alloc, b"ann").ok()?,
        client: Name::read(alloc, b"ws1").ok()?,
        host: Name::read(alloc, b"hostA").ok()?,
    })
}

/// How many of two files an argument names, as ann gives it.
fn count_named(alloc: Global, tables: &Tables, argument: &[u8]) -> Option<usize> {
    let caller = ann(alloc)?;
    let argument = FileArgument {
        text: Text::from_bytes(alloc, argument).ok()?,
        spec: FileSpec::read(alloc, argument).ok()?,
    };
    let main = path_of(alloc, b"//depot/main/a.c")?;
    let old = path_of(alloc, b"//depot/old/a.c")?;
    let files = vec![in alloc; main, old].ok()?;
    let who = who_of(alloc, tables, &caller).ok()?;
    let asker = Asker::with(alloc, tables, &caller, who).ok()?;
    let named = named(
        alloc,
        tables,
        &caller,
        &asker,
        &argument,
        files.as_slice(),
        false,
    )
    .ok()?;
    Some(named.len())
}

/// Whether arguments name so many files where there are no rows, and so all rights.
fn names_files(alloc: Global) -> bool {
    let Ok(tables) = Tables::empty(alloc) else {
        return false;
    };
    let one = count_named(alloc, &tables, b"//depot/main/...");
    let both = count_named(alloc, &tables, b"//depot/.../*.c");
    drop(tables);
    one == Some(1) && both == Some(2)
}

#[test]
fn an_argument_names_files(rt: HostRuntime) {
    assert!(rt; names_files(rt.alloc()));
}
