//! Answering a command of one of the parties.

ghost use Rattle.std.specs.Prelude.{◌≡◌, ◌≢◌, ◌<◌, ℕ, List, Some, length, slice_get, true};
ghost use Rattle.run_parties.specs.Giving.{text_of};
ghost use Rattle.session_loop.specs.declared.session.SessionRun.{SessionRun as AnyRun};
ghost use Rattle.session_turns.specs.Running.{AreWithin};
ghost use Rattle.session_turns.specs.Answering.{AnswersNone, AreDone, IsAnsweredAt, IsDoneAt, IsSameAt, has_left_at, has_more_at, reply_in};

use depot_rows::model::Answer;
use depot_rows::paths::Text;
use outside_api::{Clock, Sink};
use run_parties::give;
use session_loop::SessionRun;
use std::alloc::AllocError;

/// Whether a party has a command that isn't answered.
pub(crate) fn has_more(runs: &[SessionRun], totals: &[u32], at: usize) -> bool
    ensures more { result ≡ has_more_at (slice_get runs.now at) (slice_get totals.now at) }
    ensures few { result ≡ true → (run : AnyRun) → slice_get runs.now at ≡ Some run → run.commands < 4294967295 }
{
    match runs.get(at) {
        None => false,
        Some(run) => match totals.get(at) {
            None => false,
            Some(total) => run.commands < *total,
        },
    }
}

/// The reply of an answer.
pub(crate) fn reply_in(answer: Result<Answer, AllocError>) -> Result<Text, AllocError>
    ensures { result ≡ reply_in answer }
{
    match answer {
        Ok(answer) => Ok(answer.reply),
        Err(error) => Err(error),
    }
}

/// Gives a party the reply to its next command. Answers whether its sink has failed.
pub(crate) fn answer_party<K: Sink>(
    at: usize,
    reply: Result<Text, AllocError>,
    runs: &mut Vec<SessionRun>,
    sinks: &mut Vec<K>,
) -> bool
    requires run { at < length runs.old.items }
    requires sink { at < length sinks.old.items }
    requires few { (run : AnyRun) → slice_get runs.old.items at ≡ Some run → run.commands < 4294967295 }
    ensures { IsAnsweredAt K.says at
        (text_of reply) runs.old.items runs.new.items sinks.old.items sinks.new.items result }
{
    let number = runs[at].commands + 1;
    let failed = give(&mut sinks[at], reply, number);
    runs[at] = SessionRun {
        commands: number,
        failed,
    };
    failed
}

/// Whether a party has a command that isn't answered, and its sink has not failed.
fn has_left(runs: &[SessionRun], totals: &[u32], at: usize) -> bool
    ensures left { result ≡ has_left_at (slice_get runs.now at) (slice_get totals.now at) }
    ensures few { result ≡ true → (run : AnyRun) → slice_get runs.now at ≡ Some run → run.commands < 4294967295 }
{
    match runs.get(at) {
        None => false,
        Some(run) => {
            if run.failed {
                return false;
            }
            has_more(runs, totals, at)
        }
    }
}

/// Answers all that a party has left as want of memory, as long as its sink takes it. Where the tables are those of a
/// depot, nothing is left. The clock is the one that gave the moments of the order.
fn answer_left<K: Sink, C: Clock>(
    at: usize,
    clock: &C,
    totals: &[u32],
    runs: &mut Vec<SessionRun>,
    sinks: &mut Vec<K>,
)
    requires sink { at < length sinks.old.items }
    requires as_many { length sinks.old.items ≡ length runs.old.items }
    ensures as_many { length sinks.new.items ≡ length runs.new.items }
    ensures count { length sinks.new.items ≡ length sinks.old.items }
    ensures none { AnswersNone (C.says.may_give clock.now) K.says runs.old.items runs.new.items sinks.old.items sinks.new.items }
    ensures within { (before : List K) → AreWithin K.says totals.now runs.old.items before sinks.old.items →
        AreWithin K.says totals.now runs.new.items before sinks.new.items }
    ensures done { IsDoneAt runs.new.items totals.now at }
    ensures others { (j : ℕ) → j ≢ at → IsSameAt j runs.old.items runs.new.items sinks.old.items sinks.new.items }
    ensures same { IsDoneAt runs.old.items totals.now at →
        IsSameAt at runs.old.items runs.new.items sinks.old.items sinks.new.items }
{
    'left: while has_left(runs, totals, at) {
        answer_party(at, Err(AllocError), runs, sinks);
    }
}

/// Answers what the parties have left, as want of memory. Where a party has nothing left, it gets nothing.
pub(crate) fn answer_rest<K: Sink, C: Clock>(
    clock: &C,
    totals: &[u32],
    runs: &mut Vec<SessionRun>,
    sinks: &mut Vec<K>,
)
    requires as_many { length sinks.old.items ≡ length runs.old.items }
    ensures none { AnswersNone (C.says.may_give clock.now) K.says runs.old.items runs.new.items sinks.old.items sinks.new.items }
    ensures within { (before : List K) → AreWithin K.says totals.now runs.old.items before sinks.old.items →
        AreWithin K.says totals.now runs.new.items before sinks.new.items }
    ensures done { AreDone runs.new.items totals.now }
    ensures same { (i : ℕ) → IsDoneAt runs.old.items totals.now i →
        IsSameAt i runs.old.items runs.new.items sinks.old.items sinks.new.items }
{
    for at in 0..sinks.len() {
        answer_left(at, clock, totals, runs, sinks);
    }
}
