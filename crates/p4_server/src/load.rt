//! The mode `load`: the run of a script that is made, and the figures of the depot after it.

ghost use Rattle.std.specs.Prelude.{◌≡◌, List, ℕ, [], length, IfOk, OnErr};
ghost use Rattle.archive_file.specs.Archive.{disk_of as archive_disk_of};
ghost use Rattle.depot_rows.specs.depot_model.Deeds.{Deed};
ghost use Rattle.depot_rows.specs.Standing.{Stand};
ghost use Rattle.depot_rows.specs.table_changes.Changed.{rows_of};
ghost use Rattle.disk_journal.specs.Stands.{disk_of};
ghost use Rattle.followed_depot.specs.Following.{HasRunFollowed};
ghost use Rattle.load_script.specs.Lines.{lines_of};
ghost use Rattle.load_script.specs.Script.{script_of};
ghost use Rattle.load_session.specs.Loading.{IsAskedBy, IsLoaded, load_session as session_of};
ghost use Rattle.replica_turns.specs.Master.{CanBeFollowed, Past};
ghost use Rattle.party_threads.specs.depot_commit.Growing.{Chronicle};
ghost use Rattle.party_threads.specs.serial_depot.Running.{CanTake, HasRun};
ghost use Rattle.session_loop.specs.Asking.{commands_of};
ghost use Rattle.session_loop.specs.Served.{AreCaused, StandWithoutFaults};
ghost use Rattle.end_lines.specs.Causes.{status_of};
ghost use Rattle.p4_server.specs.Load.{GivesFigures, IsFigured, IsLoadTold, Loads, LoadsFiles, end_cause, figures_in, load_cause};

use crate::ended::{Ended, any_fault};
use crate::opening::end_unopened;
use crate::telling::end_alone;
use depot_figures::{file_figures, landed_changes};
use depot_rows::model::Place;
use depot_rows::paths::{Sequence, Text};
use depot_rows::tables::Tables;
use end_lines::{Cause, give_cause, status_code};
use followed_depot::{FollowedDepot, Following};
use load_script::{LoadFigures, load_lines};
use load_session::{LoadRun, run_load};
use outside_api::{Clock, Disk, Gate, Sink};
use recovery::{MakeFault, Opened, make_files, open_files};
use serial_depot::{Closed, SerialDepot};
use std::alloc::{AllocError, Global};
use std::marker::Brand;
use wire_text::{ScriptEnd, give_all};

/// The figures of the depot of these tables.
fn figures_of(alloc: Global, tables: &Tables, commands: u32) -> Result<LoadFigures, AllocError>
    ensures { IfOk result (λ figures. (d : List Deed) → Stand (rows_of tables.now) d →
        figures ≡ figures_in commands d) }
{
    let changes = landed_changes(alloc, tables)?;
    let files = file_figures(alloc, tables)?;
    let commands = u64::from(commands);
    Ok(LoadFigures {
        commands,
        changes,
        files: files.live,
        bytes: files.bytes,
    })
}

/// Gives the lines of figures, and says why the program ends then.
fn give_lines<K: Sink>(figures: LoadFigures, lines: &Text, out: &mut K) -> Cause
    requires { lines.now ≡ lines_of figures }
    ensures { IsFigured result (K.says.given out.old) (K.says.given out.new) (K.says.faults out.old)
        (K.says.faults out.new) figures }
{
    match give_all(out, lines.as_bytes()) {
        Ok(()) => Cause::Done,
        Err(_) => Cause::Fault,
    }
}

/// Gives the figures of the depot of these tables, and says why the program ends then.
fn give_figures<K: Sink>(alloc: Global, tables: &Tables, commands: u32, out: &mut K) -> Cause
    ensures { GivesFigures result (K.says.given out.old) (K.says.given out.new) (K.says.faults out.old)
        (K.says.faults out.new) (λ figures. (d : List Deed) → Stand (rows_of tables.now) d → figures ≡
        figures_in commands d) }
{
    let figures = match figures_of(alloc, tables, commands) {
        Ok(figures) => figures,
        Err(_) => return Cause::Memory,
    };
    let lines = match load_lines(alloc, figures) {
        Ok(lines) => lines,
        Err(_) => return Cause::Memory,
    };
    give_lines(figures, &lines, out)
}

/// The cause to which the end of the script leads.
fn cause_of_end(end: ScriptEnd) -> Cause
    ensures { result ≡ end_cause end }
{
    match end {
        ScriptEnd::Whole => Cause::Done,
        ScriptEnd::Fault(_) => Cause::Script,
        ScriptEnd::ReadFault => Cause::Fault,
    }
}

/// The cause to which the places of the commands and the end of the script lead.
fn cause_of_load(commands: u32, end: ScriptEnd, order: &[Place]) -> Cause
    ensures { result ≡ load_cause commands end order.now }
{
    if order.len() != commands as usize {
        return Cause::Memory;
    }
    if any_fault(order) {
        return Cause::Fault;
    }
    cause_of_end(end)
}

/// Tells a load: the figures where all is done so far, and else the line of the cause. Says why the program ends then.
fn tell<K: Sink>(alloc: Global, cause: Cause, tables: &Tables, commands: u32, out: &mut K) -> Cause
    ensures { IsLoadTold (K.says.given out.old) (K.says.given out.new) (K.says.faults out.old) (K.says.faults out.new)
        (λ figures. (d : List Deed) → Stand (rows_of tables.now) d → figures ≡ figures_in commands d) result cause }
{
    match cause {
        Cause::Done => give_figures(alloc, tables, commands, out),
        _ => {
            let _ = give_cause(out, cause);
            cause
        }
    }
}

/// The end of a load that was run, over the tables that it left.
fn ended_load<D, S, K: Sink>(
    alloc: Global,
    run: LoadRun,
    tables: &Tables,
    out: &mut K,
    journal: D,
    archive: D,
) -> Ended<D, S, K>
    ensures order { result.order ≡ run.order }
    ensures no_parties { (result.parties ≡ []) × (result.sources ≡ []) }
    ensures told { IsLoadTold (K.says.given out.old) (K.says.given out.new) (K.says.faults out.old)
        (K.says.faults out.new) (λ figures. (d : List Deed) → Stand (rows_of tables.now) d → figures ≡
        figures_in run.commands d) result.cause (load_cause run.commands run.end run.order) }
    ensures status { result.status ≡ status_of result.cause }
    ensures journal { result.journal ≡ journal }
    ensures archive { result.archive ≡ archive }
{
    let LoadRun {
        commands,
        end,
        order,
    } = run;
    let led = cause_of_load(commands, end, order.as_slice());
    let cause = tell(alloc, led, tables, commands, out);
    Ended {
        status: status_code(cause),
        cause,
        order,
        parties: Sequence::new(alloc),
        sources: Sequence::new(alloc),
        journal,
        archive,
    }
}

/// A load that was run, if there was memory for its script, and the depot as it left it.
#[derive(Drop)]
struct Loaded<D: Disk> {
    run: Result<LoadRun, AllocError>,
    depot: SerialDepot<D>,
}

/// Runs the script of a seed and a number of steps over a depot, which stays one that replicas may follow.
fn load_depot<D: Disk, C: Clock, G: Gate, F: Following>(
    alloc: Global,
    seed: u32,
    count: u32,
    clock: &C,
    gate: &G,
    depot: SerialDepot<D>,
) -> Loaded<D>
    requires can { CanTake D.says depot }
    requires began { (past : Past) (start : List Deed) (c : Chronicle) → F.masters past start c →
        CanBeFollowed D.says past start [] depot }
    ensures unrun { OnErr result.run (result.depot ≡ depot) }
    ensures read { IfOk result.run (λ run. IsAskedBy (script_of seed count) (session_of seed count) run.end) }
    ensures commands { IfOk result.run (λ run. run.commands ≡ length (commands_of (session_of seed count))) }
    ensures loaded { (since : ℕ) (start : List Deed) → HasRun D.says depot since start [] → IfOk result.run (λ run.
        IsLoaded (C.says.may_give clock.now) (HasRunFollowed D.says F.masters result.depot since) start (session_of seed count) run.order) }
    ensures stand { IfOk result.run
        (λ run. StandWithoutFaults (D.says.faults (disk_of depot.journal)) (D.says.faults (disk_of result.depot.journal)) (D.says.faults (archive_disk_of depot.archive)) (D.says.faults (archive_disk_of result.depot.archive)) [] run.order) }
    ensures faults { IfOk result.run
        (λ run. AreCaused (D.says.faults (disk_of depot.journal)) (D.says.faults (disk_of result.depot.journal)) (D.says.faults (archive_disk_of depot.archive)) (D.says.faults (archive_disk_of result.depot.archive)) [] run.order) }
{
    let mut followed = FollowedDepot::<D, F>::new(depot);
    let run = run_load(alloc, seed, count, clock, gate, &mut followed);
    Loaded {
        run,
        depot: followed.depot,
    }
}

/// Runs the script of a seed and a number of steps over the files of the depot, and tells the figures.
fn load_files<D: Disk, S, K: Sink, C: Clock, G: Gate>(
    alloc: Global,
    seed: u32,
    count: u32,
    journal: D,
    archive: D,
    out: &mut K,
    clock: &C,
    gate: &G,
) -> Ended<D, S, K>
    ensures loads { LoadsFiles D.says K.says (C.says.may_give clock.now)
        (record { journal = journal; archive = archive; out = out.old })
        (record { out = out.new; ended = result }) seed count }
    ensures status { result.status ≡ status_of result.cause }
{
    let Opened {
        tables,
        journal,
        archive,
    } = match open_files(alloc, journal, archive) {
        Ok(opened) => opened,
        Err(found) => return end_unopened(alloc, found, out),
    };
    let depot = SerialDepot::new(tables, journal, archive);
    let Loaded { run, depot } = load_depot::<D, C, G, Brand>(
        alloc, seed, count, clock, gate, depot,
    );
    let Closed {
        tables,
        journal,
        archive,
    } = depot.close();
    match run {
        Ok(run) => {
            let ended = ended_load(alloc, run, &tables, out, journal, archive);
            drop(tables);
            ended
        }
        Err(_) => {
            drop(tables);
            end_alone(alloc, Cause::Memory, out, journal, archive)
        }
    }
}

/// Makes the files where there are none, runs the script of a seed and a number of steps over them as the session of
/// party 1, and prints four lines: how many commands the script has, and how many changes, live files and bytes of
/// content the depot has then. The replies go nowhere.
pub fn load<D: Disk, S, K: Sink, C: Clock, G: Gate>(
    alloc: Global,
    seed: u32,
    count: u32,
    journal: D,
    archive: D,
    out: &mut K,
    clock: &C,
    gate: &G,
) -> Ended<D, S, K>
    ensures loads { Loads D.says K.says (C.says.may_give clock.now)
        (record { journal = journal; archive = archive; out = out.old })
        (record { out = out.new; ended = result }) seed count }
    ensures status { result.status ≡ status_of result.cause }
{
    let mut journal = journal;
    let mut archive = archive;
    match make_files(&mut journal, &mut archive) {
        Ok(()) => load_files(alloc, seed, count, journal, archive, out, clock, gate),
        Err(MakeFault::Made) => {
            load_files(alloc, seed, count, journal, archive, out, clock, gate)
        }
        Err(MakeFault::DiskFault) => end_alone(alloc, Cause::Fault, out, journal, archive),
    }
}
