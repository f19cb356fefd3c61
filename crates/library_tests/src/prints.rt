//! A replica's `print`, over an archive in memory (`replica_answers`).

ghost use Rattle.std.specs.Prelude.{◌<◌, ◌^◌, length, IfSome};

use crate::calls::link_to;
use crate::chains::{JOURNAL, contents_of};
use depot_path::Text;
use depot_rows::model::{Filter, Reply, Request};
use memory_world::{FixedClock, MemorySource};
use outside_api::Link;
use replica_answers::{PrintFault, answer_print};
use replica_pull::Replica;
use session_loop::{ReadSession, ReplicaScript, read_session, requests_of};
use std::alloc::Global;

/// The file of the journal is printed, of which the archive has 5 bytes from its first one on.
const SCRIPT: &[u8] = b"replica rep1 bob hostB //depot/...\np4 print //depot/a\n";

/// What the script asks.
fn asked(alloc: Global) -> Option<ReplicaScript>
    ensures { IfSome result (λ script. length script.session.commands < 2 ^ 32) }
{
    let text = Text::from_bytes(alloc, SCRIPT).ok()?;
    let mut source = MemorySource::new(text, Vec::new(alloc));
    let read = read_session(alloc, &mut source);
    drop(source);
    let ReadSession {
        session,
        replica,
        end: _,
    } = read.ok()?;
    drop(session);
    replica
}

/// The replica with this filter that has taken the journal.
fn following<L: Link>(alloc: Global, filter: Filter, link: &mut L) -> Option<Replica> {
    let mut replica = Replica::with_filter(alloc, filter).ok()?;
    let _ = replica.pull(alloc, link);
    if replica.position() == (0, 5) {
        Some(replica)
    } else {
        drop(replica);
        None
    }
}

/// Whether a reply is one row with these bytes.
fn is_content(reply: &Reply, bytes: &[u8]) -> bool {
    let [row] = reply.rows.as_slice() else {
        return false;
    };
    match &row.content {
        Some(content) => content.as_bytes() == bytes,
        None => false,
    }
}

/// Whether the reply to a request is one row with these bytes, which are all that the archive has.
fn gives(
    alloc: Global,
    replica: &Replica,
    request: &Request,
    bytes: &[u8],
) -> Result<bool, PrintFault> {
    let mut contents = contents_of(alloc, bytes)?;
    let answer = answer_print(alloc, replica, &mut contents, request);
    drop(contents);
    let reply = answer?;
    let is_given = is_content(&reply, bytes);
    drop(reply);
    Ok(is_given)
}

/// Whether a request for the file is answered with its content where the archive has it, and else with the place at
/// which it would begin.
fn looks_at_digests(alloc: Global, replica: &Replica, request: &Request) -> bool {
    gives(alloc, replica, request, b"hello") == Ok(true)
        && gives(alloc, replica, request, b"jello") == Err(PrintFault::BadContent(0))
        && gives(alloc, replica, request, b"hell") == Err(PrintFault::Absent(0))
}

/// Whether a replica on the journal looks at digests.
fn prints_good_contents(alloc: Global) -> bool {
    let Some(ReplicaScript { filter, session }) = asked(alloc) else {
        return false;
    };
    let Ok(mut requests) = requests_of(alloc, 1, session, &FixedClock::new(0)) else {
        drop(filter);
        return false;
    };
    let Ok(mut link) = link_to(alloc, JOURNAL) else {
        drop(filter);
        drop(requests);
        return false;
    };
    let replica = following(alloc, filter, &mut link);
    drop(link);
    let request = requests.pop();
    drop(requests);
    let is_good = match (&replica, &request) {
        (Some(replica), Some(request)) => looks_at_digests(alloc, replica, request),
        _ => false,
    };
    drop(replica);
    drop(request);
    is_good
}

#[test]
fn a_print_looks_at_digests(rt: HostRuntime) {
    assert!(rt; prints_good_contents(rt.alloc()));
}
