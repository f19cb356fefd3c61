//! The run of the session of a load.

ghost use Rattle.std.specs.Prelude.{◌≡◌, ◌≤◌, [], ℕ, List, Option, Some, None, length, IfOk, OnErr};
ghost use Rattle.depot_model.specs.Deeds.{Deed};
ghost use Rattle.session_loop.specs.Asking.{AreWellFormed, commands_of};
ghost use Rattle.session_loop.specs.Served.{AreCaused, StandWithoutFaults};
ghost use Rattle.load_script.specs.Script.{script_of};
ghost use Rattle.load_session.specs.Loading.{IsAskedBy, IsLoaded, IsReadLoad, load_session as session_of};

use crate::streams::{NoReplies, ScriptBytes};
use depot_model::paths::{Sequence, Text};
use depot_model::{Place, Session};
use load_script::load_script;
use outside_api::{Clock, Gate};
use session_loop::{ReadSession, Taker, read_session, run_session};
use std::alloc::{AllocError, Global};
use wire_text::ScriptEnd;

/// What a load came to.
#[derive(Drop)]
pub struct LoadRun {
    /// The commands of its session.
    pub commands: u32,
    /// How the reading of its script ended.
    pub end: ScriptEnd,
    /// The places of its commands.
    pub order: Sequence<Place>,
}

/// Reads the session of a load.
fn read_load(alloc: Global, script: &Text) -> Result<ReadSession, AllocError>
    ensures read { IfOk result (IsReadLoad script.now) }
    ensures few { IfOk result (λ read. length (commands_of read.session) ≤ 67108864) }
    ensures formed { IfOk result (λ read. AreWellFormed (commands_of read.session)) }
{
    let mut source = ScriptBytes {
        rest: script.as_bytes(),
    };
    read_session(alloc, &mut source)
}

/// Runs what was read of a script, which may have no session.
fn run_read<T: Taker, C: Clock, G: Gate>(
    alloc: Global,
    session: Option<Session>,
    clock: &C,
    gate: &G,
    taker: &mut T,
    order: &mut Vec<Place>,
) -> u32
    requires can { T.can_take taker.old }
    requires few { length (commands_of session) ≤ 67108864 }
    requires no_places { order.old.items ≡ [] }
    ensures can { T.can_take taker.new }
    ensures commands { result ≡ length (commands_of session) }
    ensures loaded { (since : ℕ) (start : List Deed) → AreWellFormed (commands_of session) →
        T.has_run taker.old since start [] →
        IsLoaded (C.says.may_give clock.now) (T.has_run taker.new since) start session order.new.items }
    ensures stand { StandWithoutFaults (T.faults taker.old) (T.faults taker.new) (T.content_faults taker.old)
        (T.content_faults taker.new) [] order.new.items }
    ensures faults { AreCaused (T.faults taker.old) (T.faults taker.new) (T.content_faults taker.old)
        (T.content_faults taker.new) [] order.new.items }
{
    match session {
        Some(session) => {
            let run = run_session(alloc, 1, session, clock, gate, &mut NoReplies, taker, order);
            run.commands
        }
        None => 0,
    }
}

/// Makes the script of a seed and a number of steps, and takes the commands of its session, as party 1. Its replies go
/// nowhere. Without memory for the script nothing is taken; a command that finds no memory has no place.
pub fn run_load<T: Taker, C: Clock, G: Gate>(
    alloc: Global,
    seed: u32,
    count: u32,
    clock: &C,
    gate: &G,
    taker: &mut T,
) -> Result<LoadRun, AllocError>
    requires { T.can_take taker.old }
    ensures can { T.can_take taker.new }
    ensures unrun { OnErr result (taker.new ≡ taker.old) }
    ensures read { IfOk result (λ run. IsAskedBy (script_of seed count) (session_of seed count) run.end) }
    ensures commands { IfOk result (λ run. run.commands ≡ length (commands_of (session_of seed count))) }
    ensures loaded { (since : ℕ) (start : List Deed) → T.has_run taker.old since start [] → IfOk result (λ run.
        IsLoaded (C.says.may_give clock.now) (T.has_run taker.new since) start (session_of seed count) run.order) }
    ensures stand { IfOk result (λ run. StandWithoutFaults (T.faults taker.old) (T.faults taker.new) (T.content_faults taker.old) (T.content_faults taker.new) [] run.order) }
    ensures faults { IfOk result (λ run. AreCaused (T.faults taker.old) (T.faults taker.new) (T.content_faults taker.old) (T.content_faults taker.new) [] run.order) }
{
    let script = load_script(alloc, seed, count)?;
    let read = read_load(alloc, &script)?;
    let mut order = Vec::new(alloc);
    let commands = run_read(alloc, read.session, clock, gate, taker, &mut order);
    Ok(LoadRun {
        commands,
        end: read.end,
        order: Sequence::from_vec(order),
    })
}
