//! How a run of the program ends.

ghost use Rattle.std.specs.Prelude.{◌≡◌, ◌≤◌, ◌<◌, ◌+◌, ◌∷◌, List, drop, length, IfOk};
ghost use Rattle.p4_server.specs.Ends.{is_failed as failed_test, is_faulty as faulty_test, has_fault_place, has_failed_party, has_faulty_party, ends_cause, party_end, ended_parties};

use depot_rows::model::Place;
use depot_rows::paths::Sequence;
use end_lines::Cause;
use session_loop::SessionRun;
use std::alloc::{AllocError, Global};
use wire_text::{ScriptEnd, ScriptFault};

/// How a party ends.
#[derive(Clone, Copy, PartialEq, Eq)]
pub enum PartyCause {
    /// Its script was read to its end, and every reply was given.
    Whole,
    /// Its script has a fault.
    Script(ScriptFault),
    /// Its source failed.
    ReadFault,
    /// Its sink failed.
    WriteFault,
}

/// The end of a party.
#[derive(Drop)]
pub struct PartyEnd<K> {
    /// The party, from 1.
    pub party: u32,
    /// What it was answered.
    pub sink: K,
    /// How many of its commands were taken or found no memory.
    pub commands: u32,
    /// Why it ended.
    pub end: PartyCause,
}

/// What a run of the program leaves.
#[derive(Drop)]
pub struct Ended<D, S, K> {
    /// The status with which the program ends: 0 done, 1 usage, 2 files that are there already, not there
    /// or damaged, 3 a script's fault, 4 a fault of the outside, 5 want of memory.
    pub status: u8,
    /// Why it ends.
    pub cause: Cause,
    /// The order in which the commands were taken.
    pub order: Sequence<Place>,
    /// The end of each party, in the order of the names.
    pub parties: Sequence<PartyEnd<K>>,
    /// The source of each of these parties.
    pub sources: Sequence<S>,
    /// The journal's disk.
    pub journal: D,
    /// The archive's disk.
    pub archive: D,
}

/// How a party ends of which a script was read so, and whose sink failed or not.
pub fn end_of_party(failed: bool, end: ScriptEnd) -> PartyCause
    ensures { result ≡ party_end failed end }
{
    if failed {
        return PartyCause::WriteFault;
    }
    match end {
        ScriptEnd::Whole => PartyCause::Whole,
        ScriptEnd::Fault(fault) => PartyCause::Script(fault),
        ScriptEnd::ReadFault => PartyCause::ReadFault,
    }
}

/// The end of the party at a place of the lists, which count from 0.
fn end_at<K>(runs: &[SessionRun], ends: &[ScriptEnd], index: usize, sink: K) -> PartyEnd<K>
    requires runs { index < length runs.now }
    requires ends { index < length ends.now }
    requires few { index < 16 }
    ensures { (rest : List K) →
        ended_parties (index + 1) (drop index runs.now) (drop index ends.now) (sink ∷ rest) ≡ result ∷
        ended_parties (index + 1 + 1) (drop (index + 1) runs.now) (drop (index + 1) ends.now) rest }
{
    let run = runs[index];
    PartyEnd {
        party: index as u32 + 1,
        sink,
        commands: run.commands,
        end: end_of_party(run.failed, ends[index]),
    }
}

/// The ends of all parties, from party 1 on: how far each session came, how its script was read, and its sink.
pub fn all_ends<K: Drop>(
    alloc: Global,
    runs: &[SessionRun],
    ends: &[ScriptEnd],
    sinks: Vec<K>,
) -> Result<Sequence<PartyEnd<K>>, AllocError>
    requires runs { length runs.now ≡ length sinks.items }
    requires ends { length ends.now ≡ length sinks.items }
    requires few { length sinks.items ≤ 16 }
    ensures { IfOk result (λ parties. parties ≡ ended_parties 1 runs.now ends.now sinks.items) }
{
    let mut parties = Sequence::new(alloc);
    for sink in sinks {
        let party = end_at(runs, ends, parties.len(), sink);
        parties.push(party)?;
    }
    Ok(parties)
}

fn is_failed(end: PartyCause) -> bool
    ensures { result ≡ failed_test end }
{
    match end {
        PartyCause::ReadFault | PartyCause::WriteFault => true,
        PartyCause::Whole | PartyCause::Script(_) => false,
    }
}

fn is_faulty(end: PartyCause) -> bool
    ensures { result ≡ faulty_test end }
{
    match end {
        PartyCause::Script(_) => true,
        PartyCause::Whole | PartyCause::ReadFault | PartyCause::WriteFault => false,
    }
}

/// Whether a place of the order is a fault.
pub fn any_fault(order: &[Place]) -> bool
    ensures { result ≡ has_fault_place order.now }
{
    order.iter().any(|place| place.fault)
}

fn any_failed<K>(parties: &[PartyEnd<K>]) -> bool
    ensures { result ≡ has_failed_party parties.now }
{
    parties.iter().any(|party| is_failed(party.end))
}

fn any_faulty<K>(parties: &[PartyEnd<K>]) -> bool
    ensures { result ≡ has_faulty_party parties.now }
{
    parties.iter().any(|party| is_faulty(party.end))
}

/// The cause to which the places of the order and the ends of the parties lead, and whether a replica was answered that
/// a disk failed.
pub fn cause_of<K>(order: &[Place], parties: &[PartyEnd<K>], lost: bool) -> Cause
    ensures { result ≡ ends_cause order.now parties.now lost }
{
    if lost || any_fault(order) || any_failed(parties) {
        Cause::Fault
    } else if any_faulty(parties) {
        Cause::Script
    } else {
        Cause::Done
    }
}
