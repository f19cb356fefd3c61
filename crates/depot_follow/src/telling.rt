//! What is told of a following.

ghost use Rattle.std.specs.Prelude.{◌++◌, codes};
ghost use Rattle.outside_api.specs.Count.{HasCause};
ghost use Rattle.wire_text.specs.Giving.{GivesAll};
ghost use Rattle.end_lines.specs.Lines.{cause_line};
ghost use Rattle.end_lines.specs.Causes.{cause_by};
ghost use Rattle.depot_follow.specs.Lines.{apart_line, bad_line, chain_line, done_lines};

use crate::ended::ChainCause;
use crate::following::Figures;
use end_lines::{Cause, cause_of_fault, give_cause, give_pieces};
use itoa::Buffer;
use outside_api::Sink;
use recovery::OpenFault;
use replica_chain::Departure;
use wire_text::{GiveFault, give_all};

/// Gives the line of files of a node that weren't opened.
fn give_node_shut<K: Sink>(out: &mut K, fault: OpenFault) -> Result<(), GiveFault>
    ensures given { GivesAll (K.says.given out.old) (K.says.given out.new)
        (codes "node " ++ cause_line (cause_by fault)) result }
    ensures cause { HasCause (K.says.faults out.old) (K.says.faults out.new) result }
{
    match give_all(out, b"node ") {
        Ok(()) => give_cause(out, cause_of_fault(fault)),
        Err(fault) => Err(fault),
    }
}

/// Gives the line of a bad place.
fn give_bad<K: Sink>(out: &mut K, place: u64) -> Result<(), GiveFault>
    ensures given { GivesAll (K.says.given out.old) (K.says.given out.new) (bad_line place) result }
    ensures cause { HasCause (K.says.faults out.old) (K.says.faults out.new) result }
{
    let mut digits = Buffer::new();
    give_pieces(out, &[b"bad ", digits.format(place).as_bytes(), b"\n"])
}

/// Gives the line of a departure.
fn give_apart<K: Sink>(out: &mut K, departure: Departure) -> Result<(), GiveFault>
    ensures given { GivesAll (K.says.given out.old) (K.says.given out.new)
        (apart_line departure.generation departure.place) result }
    ensures cause { HasCause (K.says.faults out.old) (K.says.faults out.new) result }
{
    let mut generation = Buffer::new();
    let mut place = Buffer::new();
    give_pieces(
        out,
        &[
            b"apart ",
            generation.format(departure.generation).as_bytes(),
            b" ",
            place.format(departure.place).as_bytes(),
            b"\n",
        ],
    )
}

/// Gives the line of a cause. It takes no memory.
pub(crate) fn give_end<K: Sink>(out: &mut K, cause: ChainCause) -> Result<(), GiveFault>
    ensures given { GivesAll (K.says.given out.old) (K.says.given out.new) (chain_line cause) result }
    ensures cause { HasCause (K.says.faults out.old) (K.says.faults out.new) result }
{
    match cause {
        ChainCause::Usage => give_cause(out, Cause::Usage),
        ChainCause::Shut(fault) => give_cause(out, cause_of_fault(fault)),
        ChainCause::NodeShut(fault) => give_node_shut(out, fault),
        ChainCause::Apart(departure) => give_apart(out, departure),
        ChainCause::Bad(place) => give_bad(out, place),
        ChainCause::Incomplete => give_pieces(out, &[b"incomplete\n"]),
        ChainCause::Fault => give_cause(out, Cause::Fault),
        ChainCause::Done => give_cause(out, Cause::Done),
        ChainCause::Memory => give_cause(out, Cause::Memory),
    }
}

/// Gives the three lines of a node that has all. It takes no memory.
pub(crate) fn give_done<K: Sink>(out: &mut K, figures: Figures) -> Result<(), GiveFault>
    ensures given { GivesAll (K.says.given out.old) (K.says.given out.new)
        (done_lines figures.generation figures.changes figures.verified) result }
    ensures cause { HasCause (K.says.faults out.old) (K.says.faults out.new) result }
{
    let mut generation = Buffer::new();
    let mut changes = Buffer::new();
    let mut verified = Buffer::new();
    give_pieces(
        out,
        &[
            b"generation ",
            generation.format(figures.generation).as_bytes(),
            b"\nchanges ",
            changes.format(figures.changes).as_bytes(),
            b"\nverified ",
            verified.format(figures.verified).as_bytes(),
            b"\n",
        ],
    )
}
