//! The program: its words, its modes, its end.

ghost use Rattle.std.specs.Prelude.{◌≡◌, true};
ghost use Rattle.p4_server.specs.Promise.{KeepsPromise};
ghost use Rattle.program_words.specs.Words.{asks_alone, words_of};

use crate::checkpoint::checkpoint;
use crate::dump::dump;
use crate::ended::Ended;
use crate::init::init;
use crate::load::load;
use crate::schedule::schedule;
use crate::serve::serve;
use crate::telling::end_alone;
use end_lines::Cause;
use outside_api::{Clock, Disk, Doors, Gate};
use program_words::{Mode, mode_of, served_names};
use std::alloc::Global;
use std::sync::Wait;
use std::thread::Threads;

/// Does all that the program does in a mode that runs on one thread. With words of no mode nothing but
/// `out` is touched. What asks for threads is no such mode.
pub fn p4_alone<H: Doors, D: Disk, C: Clock, G: Gate>(
    alloc: Global,
    words: &[&str],
    doors: &mut H,
    journal: D,
    archive: D,
    out: &mut H::Out,
    clock: &C,
    gate: &G,
) -> Ended<D, H::In, H::Out>
    requires alone { asks_alone (words_of words.now) ≡ true }
    ensures promise { KeepsPromise (record { disk = D.says; source = H.In.says; sink = H.Out.says; doors = H.says; may_give = C.says.may_give clock.now }) doors.old doors.new (words_of words.now) (record { journal = journal; archive = archive; out = out.old }) (record { out = out.new; ended = result }) }
{
    let mode = match mode_of(alloc, words) {
        Ok(mode) => mode,
        Err(_) => return end_alone(alloc, Cause::Memory, out, journal, archive),
    };
    match mode {
        None => end_alone(alloc, Cause::Usage, out, journal, archive),
        Some(Mode::Init) => init(alloc, journal, archive, out),
        Some(Mode::Dump) => dump(alloc, journal, archive, out),
        Some(Mode::Checkpoint) => checkpoint(alloc, journal, archive, out, clock),
        Some(Mode::Load { seed, count }) => {
            load(alloc, seed, count, journal, archive, out, clock, gate)
        }
        Some(Mode::Schedule { seed, names }) => {
            schedule(
                alloc,
                seed,
                names.as_slice(),
                doors,
                journal,
                archive,
                out,
                clock,
                gate,
            )
        }
        Some(Mode::Serve { .. }) => end_alone(alloc, Cause::Usage, out, journal, archive),
    }
}

/// Does all that the program does. With words of no mode nothing but `out` is touched.
pub fn p4_top<R: Threads + Wait + Sync, H: Doors, D: Disk + Send, C: Clock + Sync, G: Gate + Sync>(
    rt: &R,
    alloc: Global,
    words: &[&str],
    doors: &mut H,
    journal: D,
    archive: D,
    out: &mut H::Out,
    clock: &C,
    gate: &G,
) -> Ended<D, H::In, H::Out>
where
    H::Out: Send,
    ensures promise { KeepsPromise (record { disk = D.says; source = H.In.says; sink = H.Out.says; doors = H.says; may_give = C.says.may_give clock.now }) doors.old doors.new (words_of words.now) (record { journal = journal; archive = archive; out = out.old }) (record { out = out.new; ended = result }) }
{
    match served_names(alloc, words) {
        Err(_) => end_alone(alloc, Cause::Memory, out, journal, archive),
        Ok(None) => p4_alone(alloc, words, doors, journal, archive, out, clock, gate),
        Ok(Some(names)) => serve(
            rt,
            alloc,
            names.as_slice(),
            doors,
            journal,
            archive,
            out,
            clock,
            gate,
        ),
    }
}
