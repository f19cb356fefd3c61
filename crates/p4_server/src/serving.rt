//! The parties of a run, each on a thread of its own.

ghost use Rattle.std.specs.Prelude.{◌≡◌, ◌≤◌, ◌⊎◌, [], ℕ, List, Err, length, true, false, IfOk};
ghost use Rattle.outside_api.specs.Count.{HasRisen};
ghost use Rattle.archive_file.specs.Archive.{disk_of as archive_disk_of};
ghost use Rattle.disk_journal.specs.Stands.{disk_of};
ghost use Rattle.depot_rows.specs.depot_model.Deeds.{Deed};
ghost use Rattle.party_threads.specs.replica_turns.Master.{CanBeFollowed};
ghost use Rattle.party_threads.specs.serial_depot.Running.{CanTake, HasRun};
ghost use Rattle.session_loop.specs.Served.{AreCaused, StandWithoutFaults};
ghost use Rattle.p4_server.specs.declared.party.NotRun.{NotRun};
ghost use Rattle.p4_server.specs.Headline.{AreEnds, IsRunFrom};
ghost use Rattle.p4_server.specs.Parties.{AreDifferent, CanBeTold, OnlyTheseCome, parties_of};
ghost use Rattle.p4_server.specs.Serve.{AnyOrder};
ghost use Rattle.program_words.specs.Words.{words_of};

use crate::party::{Came, NotRun, PartiesRun, Scripts, Served, open_doors, read_scripts};
use depot_rows::paths::Sequence;
use outside_api::{Clock, Disk, Doors, Gate};
use party_threads::{ThreadsRun, run_on_threads};
use serial_depot::SerialDepot;
use std::alloc::Global;
use std::sync::Wait;
use std::thread::Threads;

/// Opens the doors of the names, reads all scripts and has their commands taken or answered, those of each party on a
/// thread of its own. Where the parties aren't run, nothing is taken.
pub fn serve_parties<
    R: Threads + Wait + Sync,
    H: Doors,
    D: Disk + Send,
    C: Clock + Sync,
    G: Gate + Sync,
>(
    rt: &R,
    alloc: Global,
    names: &[&str],
    doors: &mut H,
    clock: &C,
    gate: &G,
    depot: SerialDepot<D>,
) -> Served<D, H::In, H::Out>
where
    H::Out: Send,
    requires can { CanTake D.says depot }
    requires different { AreDifferent (words_of names.now) }
    requires few { length names.now ≤ 16 }
    ensures told { IfOk result.run CanBeTold }
    ensures ends { IfOk result.run (λ run. AreEnds H.In.says H.Out.says (H.says.input doors.old) (words_of names.now) (parties_of run) run.sources.items) }
    ensures run { (since : ℕ) (start : List Deed) → HasRun D.says depot since start [] → IfOk result.run (λ run.
        IsRunFrom D.says H.In.says H.Out.says (C.says.may_give clock.now) since start depot result.depot AnyOrder (λ past. CanBeFollowed D.says past start [] depot) (H.says.input doors.old) (H.says.output doors.old) (words_of names.now) run.order run.lost (parties_of run) run.sources.items) }
    ensures stand { IfOk result.run (λ run. run.lost ≡ false →
        StandWithoutFaults (D.says.faults (disk_of depot.journal)) (D.says.faults (disk_of result.depot.journal)) (D.says.faults (archive_disk_of depot.archive)) (D.says.faults (archive_disk_of result.depot.archive)) [] run.order) }
    ensures lost { IfOk result.run (λ run. run.lost ≡ true →
        HasRisen (D.says.faults (disk_of depot.journal)) (D.says.faults (disk_of result.depot.journal)) ⊎
        HasRisen (D.says.faults (archive_disk_of depot.archive)) (D.says.faults (archive_disk_of result.depot.archive))) }
    ensures faults { IfOk result.run
        (λ run. AreCaused (D.says.faults (disk_of depot.journal)) (D.says.faults (disk_of result.depot.journal)) (D.says.faults (archive_disk_of depot.archive)) (D.says.faults (archive_disk_of result.depot.archive)) [] run.order) }
    ensures unrun { (why : NotRun) → result.run ≡ Err why → result.depot ≡ depot }
    ensures only { OnlyTheseCome (H.says.input doors.old) (H.says.output doors.old) (H.says.input doors.new)
        (H.says.output doors.new) (words_of names.now) }
    ensures doors { result.run ≡ Err NotRun.Doors → HasRisen (H.says.faults doors.old) (H.says.faults doors.new) }
{
    let Came { sources, sinks } = match open_doors(alloc, names, doors) {
        Ok(came) => came,
        Err(why) => return Served {
            depot,
            run: Err(why),
        },
    };
    let Scripts {
        sources,
        sessions,
        replicas,
        ends,
    } = match read_scripts(alloc, sources) {
        Ok(scripts) => scripts,
        Err(_) => return Served {
            depot,
            run: Err(NotRun::Memory),
        },
    };
    match run_on_threads(rt, alloc, sessions, replicas, clock, gate, sinks, depot) {
        Ok(
            ThreadsRun {
                runs,
                sinks,
                order,
                lost,
                depot,
            },
        ) => Served {
            depot,
            run: Ok(PartiesRun {
                sources,
                sinks,
                runs,
                ends,
                lost,
                order: Sequence::from_vec(order),
            }),
        },
        Err(depot) => Served {
            depot,
            run: Err(NotRun::Memory),
        },
    }
}
