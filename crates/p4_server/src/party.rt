//! The parties of a run: the doors of their names, their scripts, and their turns.

ghost use Rattle.std.specs.Prelude.{◌≡◌, ◌≤◌, ◌⊎◌, ◌∷◌, ◌++◌, [], ℕ, List, Err, length, true, false, IfOk, OnOk};
ghost use Rattle.outside_api.specs.Count.{HasRisen};
ghost use Rattle.archive_file.specs.Archive.{disk_of as archive_disk_of};
ghost use Rattle.disk_journal.specs.Stands.{disk_of};
ghost use Rattle.depot_rows.specs.depot_model.Deeds.{Deed};
ghost use Rattle.party_threads.specs.replica_turns.Master.{CanBeFollowed};
ghost use Rattle.party_threads.specs.serial_depot.Running.{CanTake, HasRun};
ghost use Rattle.session_loop.specs.Served.{AreCaused, StandWithoutFaults};
ghost use Rattle.session_turns.specs.Drawn.{IsDrawn};
ghost use Rattle.p4_server.specs.declared.party.NotRun.{NotRun};
ghost use Rattle.p4_server.specs.Headline.{AreEnds, IsRunFrom};
ghost use Rattle.p4_server.specs.Parties.{AreDifferent, AreFew, AreFormed, AreRead, CanBeTold, HaveCome, OnlyTheseCome, parties_of};
ghost use Rattle.program_words.specs.Words.{words_of};

use depot_rows::model::{Place, Session};
use depot_rows::paths::Sequence;
use outside_api::{Clock, Disk, Doors, Gate, Sink, Source};
use serial_depot::SerialDepot;
use session_loop::{ReadSession, ReplicaScript, SessionRun, read_session};
use session_turns::{Ran, Unrun, run_sessions};
use std::alloc::{AllocError, Global};
use wire_text::ScriptEnd;

/// Why no party was run.
#[derive(Clone, Copy, PartialEq, Eq)]
pub enum NotRun {
    /// A door failed.
    Doors,
    /// There was no memory for the scripts or for the turns.
    Memory,
}

/// What came by the doors, in the order of the names.
#[derive(Drop)]
pub struct Came<S, K> {
    /// What the scripts are read from.
    pub sources: Vec<S>,
    /// What the replies are given to.
    pub sinks: Vec<K>,
}

/// Adds the source and the sink of one more name.
fn add_pair<S: Drop, K: Drop>(came: &mut Came<S, K>, source: S, sink: K) -> Result<(), AllocError>
    ensures sources { OnOk result (came.new.sources.items ≡ came.old.sources.items ++ source ∷ []) }
    ensures sinks { OnOk result (came.new.sinks.items ≡ came.old.sinks.items ++ sink ∷ []) }
{
    came.sources.push(source)?;
    came.sinks.push(sink)?;
    Ok(())
}

/// Opens the door of each name, in their order.
pub fn open_doors<H: Doors>(
    alloc: Global,
    names: &[&str],
    doors: &mut H,
) -> Result<Came<H::In, H::Out>, NotRun>
    requires different { AreDifferent (words_of names.now) }
    ensures came { IfOk result (λ came. HaveCome H.In.says H.Out.says (H.says.input doors.old) (H.says.output doors.old) (words_of names.now) came.sources.items came.sinks.items) }
    ensures only { OnlyTheseCome (H.says.input doors.old) (H.says.output doors.old) (H.says.input doors.new)
        (H.says.output doors.new) (words_of names.now) }
    ensures cause { result ≡ Err NotRun.Doors → HasRisen (H.says.faults doors.old) (H.says.faults doors.new) }
{
    let mut came = Came {
        sources: Vec::new(alloc),
        sinks: Vec::new(alloc),
    };
    for name in names {
        let (source, sink) = match doors.come(name) {
            Ok(pair) => pair,
            Err(_) => return Err(NotRun::Doors),
        };
        match add_pair(&mut came, source, sink) {
            Ok(()) => {}
            Err(_) => return Err(NotRun::Memory),
        }
    }
    Ok(came)
}

/// What was read of the scripts, in the order of the names.
#[derive(Drop)]
pub struct Scripts<S> {
    /// The sources, as the reading left them.
    pub sources: Vec<S>,
    /// The session of each script that has the head of one.
    pub sessions: Vec<Option<Session>>,
    /// The replica of each script that has the head of one.
    pub replicas: Vec<Option<ReplicaScript>>,
    /// How each script ends.
    pub ends: Vec<ScriptEnd>,
}

/// Adds what was read of one more script.
fn add_script<S: Drop>(
    scripts: &mut Scripts<S>,
    source: S,
    read: ReadSession,
) -> Result<(), AllocError>
    ensures sources { OnOk result (scripts.new.sources.items ≡ scripts.old.sources.items ++ source ∷ []) }
    ensures sessions { OnOk result (scripts.new.sessions.items ≡ scripts.old.sessions.items ++ read.session ∷ []) }
    ensures replicas { OnOk result (scripts.new.replicas.items ≡ scripts.old.replicas.items ++ read.replica ∷ []) }
    ensures ends { OnOk result (scripts.new.ends.items ≡ scripts.old.ends.items ++ read.end ∷ []) }
{
    let ReadSession {
        session,
        replica,
        end,
    } = read;
    scripts.sessions.push(session)?;
    scripts.replicas.push(replica)?;
    scripts.sources.push(source)?;
    scripts.ends.push(end)?;
    Ok(())
}

/// Reads one more script.
fn read_one<S: Source + Drop>(
    alloc: Global,
    source: S,
    scripts: &mut Scripts<S>,
) -> Result<(), AllocError>
    ensures read { OnOk result ((before : List S) →
        AreRead S.says before scripts.old.sources.items scripts.old.sessions.items scripts.old.replicas.items scripts.old.ends.items →
        AreRead S.says (before ++ source ∷ []) scripts.new.sources.items scripts.new.sessions.items scripts.new.replicas.items scripts.new.ends.items) }
    ensures formed { OnOk result (AreFormed scripts.old.sessions.items scripts.old.replicas.items →
        AreFormed scripts.new.sessions.items scripts.new.replicas.items) }
    ensures few { OnOk result (AreFew scripts.old.sessions.items scripts.old.replicas.items →
        AreFew scripts.new.sessions.items scripts.new.replicas.items) }
{
    let mut source = source;
    let read = read_session(alloc, &mut source)?;
    add_script(scripts, source, read)?;
    Ok(())
}

/// Reads the script of each source.
pub fn read_scripts<S: Source + Drop>(
    alloc: Global,
    sources: Vec<S>,
) -> Result<Scripts<S>, AllocError>
    ensures read { IfOk result (λ scripts. AreRead S.says sources.items scripts.sources.items scripts.sessions.items scripts.replicas.items scripts.ends.items) }
    ensures formed { IfOk result (λ scripts. AreFormed scripts.sessions.items scripts.replicas.items) }
    ensures few { IfOk result (λ scripts. AreFew scripts.sessions.items scripts.replicas.items) }
{
    let mut scripts = Scripts {
        sources: Vec::new(alloc),
        sessions: Vec::new(alloc),
        replicas: Vec::new(alloc),
        ends: Vec::new(alloc),
    };
    for source in sources {
        read_one(alloc, source, &mut scripts)?;
    }
    Ok(scripts)
}

/// Parties that were run, in the order of the names.
#[derive(Drop)]
pub struct PartiesRun<S, K> {
    /// What the scripts were read from.
    pub sources: Vec<S>,
    /// What the parties were answered.
    pub sinks: Vec<K>,
    /// How far each party came.
    pub runs: Vec<SessionRun>,
    /// How each script ends.
    pub ends: Vec<ScriptEnd>,
    /// Whether a replica was answered that a disk failed.
    pub lost: bool,
    /// The order in which the commands were taken.
    pub order: Sequence<Place>,
}

/// What became of the parties, with the depot.
#[derive(Drop)]
pub struct Served<D: Disk, S, K> {
    /// The depot, as the parties left it.
    pub depot: SerialDepot<D>,
    /// The parties, or why they weren't run.
    pub run: Result<PartiesRun<S, K>, NotRun>,
}

/// Opens the doors of the names, reads all scripts and takes their commands, by turns that the seed draws. Where the
/// parties aren't run, nothing is taken.
pub fn run_parties<H: Doors, D: Disk, C: Clock, G: Gate>(
    alloc: Global,
    seed: u32,
    names: &[&str],
    doors: &mut H,
    clock: &C,
    gate: &G,
    depot: SerialDepot<D>,
) -> Served<D, H::In, H::Out>
    requires can { CanTake D.says depot }
    requires different { AreDifferent (words_of names.now) }
    requires few { length names.now ≤ 16 }
    ensures told { IfOk result.run CanBeTold }
    ensures ends { IfOk result.run (λ run. AreEnds H.In.says H.Out.says (H.says.input doors.old) (words_of names.now) (parties_of run) run.sources.items) }
    ensures run { (since : ℕ) (start : List Deed) → HasRun D.says depot since start [] → IfOk result.run (λ run.
        IsRunFrom D.says H.In.says H.Out.says (C.says.may_give clock.now) since start depot result.depot (IsDrawn (C.says.may_give clock.now) seed) (λ past. CanBeFollowed D.says past start [] depot) (H.says.input doors.old) (H.says.output doors.old) (words_of names.now) run.order run.lost (parties_of run) run.sources.items) }
    ensures lost { IfOk result.run (λ run. run.lost ≡ true →
        HasRisen (D.says.faults (disk_of depot.journal)) (D.says.faults (disk_of result.depot.journal)) ⊎
        HasRisen (D.says.faults (archive_disk_of depot.archive)) (D.says.faults (archive_disk_of result.depot.archive))) }
    ensures stand { IfOk result.run (λ run. run.lost ≡ false →
        StandWithoutFaults (D.says.faults (disk_of depot.journal)) (D.says.faults (disk_of result.depot.journal)) (D.says.faults (archive_disk_of depot.archive)) (D.says.faults (archive_disk_of result.depot.archive)) [] run.order) }
    ensures faults { IfOk result.run
        (λ run. AreCaused (D.says.faults (disk_of depot.journal)) (D.says.faults (disk_of result.depot.journal)) (D.says.faults (archive_disk_of depot.archive)) (D.says.faults (archive_disk_of result.depot.archive)) [] run.order) }
    ensures unrun { (why : NotRun) → result.run ≡ Err why → result.depot ≡ depot }
    ensures only { OnlyTheseCome (H.says.input doors.old) (H.says.output doors.old) (H.says.input doors.new)
        (H.says.output doors.new) (words_of names.now) }
    ensures doors { result.run ≡ Err NotRun.Doors → HasRisen (H.says.faults doors.old) (H.says.faults doors.new) }
{
    let Came { sources, sinks } = match open_doors(alloc, names, doors) {
        Ok(came) => came,
        Err(why) => return Served {
            depot,
            run: Err(why),
        },
    };
    let Scripts {
        sources,
        sessions,
        replicas,
        ends,
    } = match read_scripts(alloc, sources) {
        Ok(scripts) => scripts,
        Err(_) => return Served {
            depot,
            run: Err(NotRun::Memory),
        },
    };
    match run_sessions(alloc, seed, sessions, replicas, clock, gate, sinks, depot) {
        Ok(
            Ran {
                runs,
                sinks,
                order,
                lost,
                depot,
            },
        ) => Served {
            depot,
            run: Ok(PartiesRun {
                sources,
                sinks,
                runs,
                ends,
                lost,
                order: Sequence::from_vec(order),
            }),
        },
        Err(Unrun { depot, sinks }) => {
            drop(sinks);
            Served {
                depot,
                run: Err(NotRun::Memory),
            }
        }
    }
}
