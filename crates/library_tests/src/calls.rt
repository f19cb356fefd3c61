//! Calls of the libraries that no program makes, each with ample memory.

use command_needs::{Needs, TableSet, tables_of};
use depot_path::Text;
use depot_rows::model::{Command, Filter};
use depot_rows::records::{Change, TableId};
use depot_rows::tables::Version;
use journal_groups::{GroupFault, GroupReader, read_group};
use memory_world::{Loss, LossyLink, MemoryLink, MemorySource};
use outside_api::Link;
use replica_pull::{PullFault, Replica};
use std::alloc::{AllocError, Global};
use wire_text::ScriptReader;

/// The text of a group of one counter.
const GROUP: &[u8] = b"@nx@ 1 31\n@pv@ 1 @db.counters@ @build@ 7\n";

/// The committed text of a journal with that group.
pub const JOURNAL: &[u8] = b"@ex@\n@nx@ 1 31\n@pv@ 1 @db.counters@ @build@ 7\n";

/// More bytes than there are in any text here.
const MANY: u64 = 1000;

/// A link to a journal of one generation with this committed text.
pub fn link_to(alloc: Global, text: &[u8]) -> Result<MemoryLink, AllocError> {
    let text = Text::from_bytes(alloc, text)?;
    Ok(MemoryLink::new(vec![in alloc; text]?, Vec::new(alloc)))
}

/// A link to a journal of one group that loses these, one after another.
fn lossy_link(alloc: Global, losses: &[Loss]) -> Result<LossyLink, AllocError> {
    let losses = Vec::from_slice(alloc, losses)?;
    match link_to(alloc, JOURNAL) {
        Ok(link) => Ok(LossyLink::new(link, losses)),
        Err(AllocError) => {
            drop(losses);
            Err(AllocError)
        }
    }
}

/// The filter of all files.
fn whole_filter(alloc: Global) -> Option<Filter> {
    let all = Text::from_bytes(alloc, b"//...").ok()?;
    Filter::read(alloc, &[all]).ok()
}

/// A replica of all files.
pub fn whole_replica(alloc: Global) -> Option<Replica> {
    Replica::with_filter(alloc, whole_filter(alloc)?).ok()
}

/// Whether a pull of a new replica is refused so and leaves it at its begin.
fn refuses<L: Link>(alloc: Global, link: &mut L, fault: PullFault) -> bool {
    let Some(mut replica) = whole_replica(alloc) else {
        return false;
    };
    let is_refused = replica.pull(alloc, link) == Err(fault) && replica.position() == (0, 0);
    drop(replica);
    is_refused
}

/// Whether a journal of this text is no feed for a new replica.
fn is_no_feed(alloc: Global, text: &[u8], fault: PullFault) -> bool {
    let Ok(mut link) = link_to(alloc, text) else {
        return false;
    };
    let is_refused = refuses(alloc, &mut link, fault);
    drop(link);
    is_refused
}

/// Whether six pulls, one after another, never lead a replica back.
pub fn goes_on<L: Link>(alloc: Global, replica: &mut Replica, link: &mut L) -> bool {
    let mut changes = 0;
    for _ in 0..6 {
        let _ = replica.pull(alloc, link);
        let (_, now) = replica.position();
        if now < changes {
            return false;
        }
        changes = now;
    }
    true
}

/// Whether pulls never lead a replica back, and at last to the end of a journal of one group.
fn never_goes_back<L: Link>(alloc: Global, replica: &mut Replica, link: &mut L) -> bool {
    goes_on(alloc, replica, link) && replica.position() == (0, 1) && replica.awaits() == (0, 46)
}

/// Whether a new replica follows a journal of one group over a link.
fn follows<L: Link>(alloc: Global, link: &mut L) -> bool {
    let Some(mut replica) = whole_replica(alloc) else {
        return false;
    };
    let follows = never_goes_back(alloc, &mut replica, link);
    drop(replica);
    follows
}

/// Whether a new replica follows a journal of one group over a link that loses these, one after another.
fn follows_over(alloc: Global, losses: &[Loss]) -> bool {
    let Ok(mut link) = lossy_link(alloc, losses) else {
        return false;
    };
    let follows = follows(alloc, &mut link);
    drop(link);
    follows
}

#[test]
fn a_feed_that_is_no_journal_is_refused(rt: HostRuntime) {
    assert!(rt; is_no_feed(rt.alloc(), b"@ex@\nx", PullFault::BadFeed(5)));
}

#[test]
fn a_replica_never_goes_back(rt: HostRuntime) {
    let (fail, short, old) = (Loss::Fail, Loss::Short(1), Loss::Old(0));
    let orders = [
        [fail, short, old],
        [fail, old, short],
        [short, fail, old],
        [short, old, fail],
        [old, fail, short],
        [old, short, fail],
    ];
    for losses in &orders {
        assert!(rt; follows_over(rt.alloc(), losses));
    }
}

/// Whether one more byte is put behind those that a reader has.
fn takes_byte(alloc: Global, reader: &mut GroupReader, byte: u8) -> bool {
    let reached = reader.place().saturating_add(reader.waiting() as u64);
    reached < MANY && reader.more(alloc, &[byte]).is_ok()
}

/// Whether what a reader gives next is a group of one record.
fn gives_group(alloc: Global, reader: &mut GroupReader) -> bool {
    match reader.next(alloc) {
        Ok(Some(changes)) => {
            let is_one = changes.len() == 1;
            drop(changes);
            is_one
        }
        Ok(None) => false,
        Err(_) => false,
    }
}

/// Whether a reader is short of bytes.
fn is_short(alloc: Global, reader: &mut GroupReader) -> bool {
    matches!(reader.next(alloc), Err(GroupFault::Short(_)))
}

/// Whether a reader that is given a text byte by byte is short of bytes before its last, behind which it gives a group.
fn reads_bytewise(alloc: Global, reader: &mut GroupReader, text: &[u8]) -> bool {
    for byte in text {
        if !is_short(alloc, reader) || !takes_byte(alloc, reader, *byte) {
            return false;
        }
    }
    gives_group(alloc, reader)
}

#[test]
fn groups_are_read_byte_by_byte(rt: HostRuntime) {
    let mut reader = GroupReader::new(Text::new(rt.alloc()), 0, 1);
    let is_read = reads_bytewise(rt.alloc(), &mut reader, JOURNAL);
    drop(reader);
    assert!(rt; is_read);
}

/// Whether a table without rows has one after the change, which is all that there is.
fn adds_row(alloc: Global, before: &Version, changes: &[Change]) -> bool {
    let [change] = changes else {
        return false;
    };
    if !before.fits(change) {
        return false;
    }
    let Ok(after) = before.with_changes(alloc, changes) else {
        return false;
    };
    let is_there = before.rows().next().is_none() && after.rows().next() == Some(&change.row);
    drop(after);
    is_there
}

/// Whether changes make a row in the table of counters without rows.
fn makes_row(alloc: Global, changes: &[Change]) -> bool {
    let Ok(before) = Version::empty(alloc, TableId::Counter) else {
        return false;
    };
    let makes_row = adds_row(alloc, &before, changes);
    drop(before);
    makes_row
}

/// Whether a text is a group, which makes a row in the table of counters without rows.
fn is_group(alloc: Global, text: &[u8]) -> bool {
    let Ok((changes, length)) = read_group(alloc, text, 1) else {
        return false;
    };
    let makes_row = makes_row(alloc, changes.as_slice());
    drop(changes);
    makes_row && length == text.len()
}

#[test]
fn a_group_is_read_whole_and_makes_its_row(rt: HostRuntime) {
    assert!(rt; is_group(rt.alloc(), GROUP));
}

/// Whether what a reader gives next is the first command of its script.
fn gives_first(alloc: Global, reader: &mut ScriptReader, source: &mut MemorySource) -> bool {
    match reader.next(alloc, source) {
        Ok(Some(item)) => {
            let is_first = item.number == 1;
            drop(item);
            is_first
        }
        Ok(None) => false,
        Err(_) => false,
    }
}

/// Whether what a reader gives next is the only command of its script.
fn gives_one(alloc: Global, reader: &mut ScriptReader, source: &mut MemorySource) -> bool {
    gives_first(alloc, reader, source) && matches!(reader.next(alloc, source), Ok(None))
}

/// Whether a source is a script of one command.
fn gives_script(alloc: Global, source: &mut MemorySource) -> bool {
    let Ok(mut reader) = ScriptReader::new(alloc) else {
        return false;
    };
    let is_script = match reader.head(alloc, source) {
        Ok(head) => {
            drop(head);
            gives_one(alloc, &mut reader, source)
        }
        Err(_) => false,
    };
    drop(reader);
    is_script
}

/// Whether a text is a script of one command.
fn is_script(alloc: Global, text: &[u8]) -> bool {
    let Ok(text) = Text::from_bytes(alloc, text) else {
        return false;
    };
    let mut source = MemorySource::new(text, Vec::new(alloc));
    let is_script = gives_script(alloc, &mut source);
    drop(source);
    is_script
}

#[test]
fn a_script_is_read_command_by_command(rt: HostRuntime) {
    assert!(rt; is_script(rt.alloc(), b"session ann ws1 hostA\np4 counters\n"));
}

/// Whether a command needs none of these tables.
fn needs_none(needs: &Needs, tables: &TableSet) -> bool {
    TableId::ALL.iter().all(|table| !tables.has(*table)
        || !needs.reads.has(*table) && !needs.writes.has(*table))
}

/// Whether neither of two commands needs a table that the other writes.
fn are_apart(first: &Command, second: &Command) -> bool {
    let (one, other) = (tables_of(first), tables_of(second));
    needs_none(&one, &other.writes) && needs_none(&other, &one.writes)
}

#[test]
fn commands_that_only_read_are_apart(rt: HostRuntime) {
    let (counters, labels, save) = (Command::Counters, Command::Labels, Command::ChangeSave);
    let readers = are_apart(&counters, &labels);
    let writer = are_apart(&counters, &save);
    drop(counters);
    drop(labels);
    drop(save);
    assert!(rt; readers && !writer);
}
