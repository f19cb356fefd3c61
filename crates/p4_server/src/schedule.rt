//! The mode `schedule`: the run of the parties over the files of the depot, by turns.

ghost use Rattle.std.specs.Prelude.{◌≡◌, ◌≤◌, length};
ghost use Rattle.end_lines.specs.Causes.{status_of};
ghost use Rattle.p4_server.specs.Parties.{AreDifferent};
ghost use Rattle.p4_server.specs.Schedule.{Schedules};
ghost use Rattle.program_words.specs.Words.{words_of};

use crate::ended::Ended;
use crate::opening::end_unopened;
use crate::party::{Served, run_parties};
use crate::reporting::{cause_of_unrun, told};
use crate::telling::end_alone;
use outside_api::{Clock, Disk, Doors, Gate};
use recovery::{Opened, open_files};
use serial_depot::{Closed, SerialDepot};
use std::alloc::Global;

/// Runs the scripts of 1 to 16 different names over the files of the depot, by turns that the seed draws, and tells the
/// order and the ends. Party i is the i-th name, from 1. No door is asked before the files are open.
pub fn schedule<H: Doors, D: Disk, C: Clock, G: Gate>(
    alloc: Global,
    seed: u32,
    names: &[&str],
    doors: &mut H,
    journal: D,
    archive: D,
    out: &mut H::Out,
    clock: &C,
    gate: &G,
) -> Ended<D, H::In, H::Out>
    requires different { AreDifferent (words_of names.now) }
    requires few { length names.now ≤ 16 }
    ensures schedules { Schedules (record { disk = D.says; source = H.In.says; sink = H.Out.says; doors = H.says; may_give = C.says.may_give clock.now }) doors.old doors.new (record { journal = journal; archive = archive; out = out.old }) (record { out = out.new; ended = result }) seed (words_of names.now) }
    ensures status { result.status ≡ status_of result.cause }
{
    let Opened {
        tables,
        journal,
        archive,
    } = match open_files(alloc, journal, archive) {
        Ok(opened) => opened,
        Err(found) => return end_unopened(alloc, found, out),
    };
    let depot = SerialDepot::new(tables, journal, archive);
    let Served { depot, run } = run_parties(alloc, seed, names, doors, clock, gate, depot);
    let Closed {
        journal,
        archive,
        ..
    } = depot.close();
    match run {
        Ok(run) => told(alloc, run, out, journal, archive),
        Err(why) => end_alone(alloc, cause_of_unrun(why), out, journal, archive),
    }
}
