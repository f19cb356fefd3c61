//! Reading a session or a replica's script: what it asks, line by line.

ghost use Rattle.std.specs.Prelude.{◌≡◌, ◌≤◌, ◌+◌, ◌∷◌, List, [], ◌≢◌, Err, None, length, map, IfOk, IfSome, OnOk, IsTrue, IsFalse};
ghost use Rattle.std.specs.List.{list_all};
ghost use Rattle.wire_text.specs.Script.{has_short_content};
ghost use Rattle.wire_text.specs.declared.entry.Entry.{Entry};
ghost use Rattle.std.specs.Arc.{arc_value};
ghost use Rattle.depot_model.specs.Contents.{contents_after};
ghost use Rattle.session_loop.specs.Asking as spec;
ghost use Rattle.session_loop.specs.Passing.{AreBehind, all_asked, asked_in};
ghost use Rattle.depot_model.specs.Filter.{filter_of as filter_spec};
ghost use Rattle.session_loop.specs.Reading.{IsReadSession};

use command_words::read_command;
use depot_model::paths::{PathFault, Sequence, Text};
use depot_model::{Asked, Caller, Command, Contents, Filter, ScriptContents, Session, WordFault};
use outside_api::Source;
use std::alloc::{AllocError, Global};
use std::sync::Arc;
use wire_text::{Entry, Head, Item, ReadScript, ScriptEnd, read_script};

/// What the script of a replica asks.
#[derive(Drop)]
pub struct ReplicaScript {
    /// Which files the replica has.
    pub filter: Filter,
    /// Who asks, and what.
    pub session: Session,
}

/// What was read of a script.
#[derive(Drop)]
pub struct ReadSession {
    /// The session, where the script has the head of one.
    pub session: Option<Session>,
    /// What a replica is asked, where the script has the head of one.
    pub replica: Option<ReplicaScript>,
    /// How the reading of its script ended.
    pub end: ScriptEnd,
}

fn takes_contents(command: &Result<Command, WordFault>) -> bool
    ensures { result ≡ spec.takes_contents command.now }
{
    matches!(
        command,
        Ok(Command::SubmitChange { .. } | Command::SubmitDefault { .. } | Command::Shelve { .. })
    )
}

/// Whether no memory was left to read a command.
fn wants_memory(command: &Result<Command, WordFault>) -> bool
    ensures { IsFalse result → command.now ≢ Err WordFault.Memory }
{
    matches!(command, Err(WordFault::Memory))
}

/// What a command takes of the contents behind so many lines that say something of files, where memory was left to read
/// it.
fn contents_for(
    command: &Result<Command, WordFault>,
    script: &Arc<ScriptContents, Global>,
    lines: usize,
) -> Result<Contents, AllocError>
    ensures taken { IfOk result (λ taken. taken ≡ spec.taken_contents (spec.takes_contents command.now) (contents_after lines (arc_value script.now).files)) }
    ensures read { OnOk result (command.now ≢ Err WordFault.Memory) }
{
    if wants_memory(command) {
        return Err(AllocError);
    }
    let taken = if takes_contents(command) { lines } else { 0 };
    Contents::behind(script, taken)
}

/// A command of a script, with how many lines before it say something of files.
#[derive(Drop)]
struct PlacedItem {
    item: Item,
    lines: usize,
}

/// What a line asks.
fn asked(
    alloc: Global,
    placed: PlacedItem,
    script: &Arc<ScriptContents, Global>,
) -> Result<Asked, AllocError>
    ensures { IfOk result (λ asked. asked ≡ asked_in (arc_value script.now).files placed) }
{
    let PlacedItem { item, lines } = placed;
    let Item { line, input, .. } = item;
    let command = read_command(alloc, &line, input.is_some());
    match contents_for(&command, script, lines) {
        Ok(contents) => Ok(Asked {
            command,
            input,
            contents,
        }),
        Err(error) => {
            drop(command);
            Err(error)
        }
    }
}

/// Goes on by an entry of the script.
fn follow(
    alloc: Global,
    entry: Entry,
    script: &mut ScriptContents,
    items: &mut Sequence<PlacedItem>,
) -> Result<(), AllocError>
    requires { AreBehind script.old.lines items.old }
    ensures behind { OnOk result (AreBehind script.new.lines items.new) }
    ensures goes { OnOk result ((rest : List Entry) →
        all_asked script.old items.old (entry ∷ rest) ≡ all_asked script.new items.new rest) }
    ensures few { OnOk result (length items.new ≤ length items.old + 1) }
{
    match entry {
        Entry::Put(content) => script.put(alloc, content),
        Entry::Clear(path) => script.clear(alloc, path),
        Entry::Command(item) => {
            let lines = script.lines();
            items.push(PlacedItem { item, lines })
        }
    }
}

/// What the entries of a script say of files, and the commands among them.
fn passed(
    alloc: Global,
    entries: Sequence<Entry>,
) -> Result<(ScriptContents, Sequence<PlacedItem>), AllocError>
    ensures value { IfOk result (λ passed. map (asked_in passed.0.files) passed.1 ≡ spec.asked_from [] entries) }
    ensures few { IfOk result (λ passed. length passed.1 ≤ length entries) }
{
    let mut script = ScriptContents::new(alloc);
    let mut items = Sequence::new(alloc);
    for entry in entries.into_vec() {
        follow(alloc, entry, &mut script, &mut items)?;
    }
    Ok((script, items))
}

/// The commands that the entries of a script ask.
fn asked_by_entries(alloc: Global, entries: Sequence<Entry>) -> Result<Sequence<Asked>, AllocError>
    ensures value { IfOk result (λ commands. commands ≡ spec.asked_from [] entries) }
    ensures few { IfOk result (λ commands. length commands ≤ length entries) }
{
    let (said, items) = passed(alloc, entries)?;
    let script = Arc::new(alloc, said)?;
    let mut commands = Sequence::new(alloc);
    for placed in items.into_vec() {
        commands.push(asked(alloc, placed, &script)?)?;
    }
    Ok(commands)
}

/// What a caller asks by these entries.
fn session_by(
    alloc: Global,
    caller: Caller,
    entries: Sequence<Entry>,
) -> Result<Session, AllocError>
    requires short { IsTrue (list_all has_short_content entries) }
    ensures value { IfOk result (λ session. session ≡ spec.session_by caller entries) }
    ensures few { IfOk result (λ session. length session.commands ≤ length entries) }
    ensures formed { IfOk result (λ session. spec.AreWellFormed session.commands) }
{
    match asked_by_entries(alloc, entries) {
        Ok(commands) => Ok(Session { caller, commands }),
        Err(error) => {
            drop(caller);
            Err(error)
        }
    }
}

/// The filter of these patterns, if they are one's.
fn filter_of(alloc: Global, patterns: &[Text]) -> Result<Option<Filter>, AllocError>
    ensures { IfOk result (λ filter. filter ≡ spec.rules_of (filter_spec patterns.now)) }
{
    match Filter::read(alloc, patterns) {
        Ok(filter) => Ok(Some(filter)),
        Err(PathFault::Memory) => Err(AllocError),
        Err(_) => Ok(None),
    }
}

/// What a replica with this filter is asked.
fn replica_with(filter: Option<Filter>, session: Session) -> Option<ReplicaScript>
    ensures { result ≡ spec.replica_with filter session }
{
    match filter {
        Some(filter) => Some(ReplicaScript { filter, session }),
        None => {
            drop(session);
            None
        }
    }
}

/// What a replica of these patterns is asked.
fn replica(
    alloc: Global,
    caller: Caller,
    patterns: Sequence<Text>,
    entries: Sequence<Entry>,
) -> Result<Option<ReplicaScript>, AllocError>
    requires short { IsTrue (list_all has_short_content entries) }
    ensures value { IfOk result (λ replica. replica ≡ spec.replica_with (spec.rules_of (filter_spec patterns)) (spec.session_by caller entries)) }
    ensures few { IfOk result (λ replica. length (spec.replica_commands replica) ≤ length entries) }
    ensures formed { IfOk result (λ replica. spec.AreWellFormed (spec.replica_commands replica)) }
{
    let filter = filter_of(alloc, patterns.as_slice())?;
    let session = session_by(alloc, caller, entries)?;
    Ok(replica_with(filter, session))
}

/// The session, or the replica's script, that a script with this head and these entries has.
fn asks(
    alloc: Global,
    head: Option<Head>,
    entries: Sequence<Entry>,
) -> Result<(Option<Session>, Option<ReplicaScript>), AllocError>
    requires short { IsTrue (list_all has_short_content entries) }
    ensures session { IfOk result (λ asks. asks.0 ≡ spec.session_of head entries) }
    ensures replica { IfOk result (λ asks. asks.1 ≡ spec.replica_of head entries) }
    ensures few { IfOk result (λ asks. length (spec.commands_of asks.0) ≤ length entries) }
    ensures few_of_replica { IfOk result (λ asks. length (spec.replica_commands asks.1) ≤ length entries) }
    ensures formed { IfOk result (λ asks. spec.AreWellFormed (spec.commands_of asks.0)) }
    ensures formed_of_replica { IfOk result (λ asks. spec.AreWellFormed (spec.replica_commands asks.1)) }
    ensures apart { IfOk result (λ asks. IfSome asks.1 (λ script. asks.0 ≡ None)) }
{
    match head {
        Some(Head::Session(caller)) => {
            let session = session_by(alloc, caller, entries)?;
            Ok((Some(session), None))
        }
        Some(Head::Replica { caller, patterns }) => {
            let replica = replica(alloc, caller, patterns, entries)?;
            Ok((None, replica))
        }
        None => Ok((None, None)),
    }
}

/// Reads a session or a replica's script from the source of its bytes.
pub fn read_session<S: Source>(alloc: Global, source: &mut S) -> Result<ReadSession, AllocError>
    ensures read { IfOk result (IsReadSession (S.says.left source.old) (S.says.left source.new) (S.says.faults source.old) (S.says.faults source.new)) }
    ensures few { IfOk result (λ read. length (spec.commands_of read.session) ≤ 67108864) }
    ensures few_of_replica { IfOk result (λ read. length (spec.replica_commands read.replica) ≤ 67108864) }
    ensures formed { IfOk result (λ read. spec.AreWellFormed (spec.commands_of read.session)) }
    ensures formed_of_replica { IfOk result (λ read. spec.AreWellFormed (spec.replica_commands read.replica)) }
    // A script is a session's or a replica's.
    ensures apart { IfOk result (λ read. IfSome read.replica (λ script. read.session ≡ None)) }
    ensures counts { S.says.faults source.old ≤ S.says.faults source.new }
{
    let ReadScript { head, entries, end } = read_script(alloc, source)?;
    let (session, replica) = asks(alloc, head, entries)?;
    Ok(ReadSession {
        session,
        replica,
        end,
    })
}
