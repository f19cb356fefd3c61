//! Laws of the machine.

ghost use Rattle.std.specs.Prelude.{◌≡◌, ◌<◌, ℕ, List, Some, IsSome, true, slice_get};
ghost use Rattle.depot_model.specs.Deeds.{Deed};
ghost use Rattle.depot_model.specs.Rules.{IsSound};
ghost use Rattle.depot_model.specs.Tables.{needs_of};
ghost use Rattle.depot_model.specs.declared.request.Request.{Request};
ghost use Rattle.lock_machine.specs.Machine.{State, Party, Finish, is_enabled, is_unfinished, event, stopped};
ghost use Rattle.lock_machine.specs.Runs.{AllServedIn, AllTell, Event, IsRun, SawAllBy, beginning, events};
ghost use Rattle.lock_machine.specs.Turns.{turns_left};

/// After every list of events no lock has two owners and the depot is that of the places so far, and sound; who commits
/// saw of each table of its command's set the rows that the depot has; while a party isn't finished, some event is
/// enabled, and one of a party with a command at hand while there is one; and each event leaves fewer turns.
pub fn parties_see_the_depot_at_their_place()
    ensures run { (start : List Deed) (requests : List (List Request)) (es : List Event) → IsSound start →
        AllServedIn requests →
        AllTell start (beginning requests) es → IsRun start (events (beginning requests) es) }
    ensures sees { (start : List Deed) (s : State) (i : ℕ) (p : Party) → IsRun start s →
        slice_get s.parties i ≡ Some p → SawAllBy start s.order p.work }
    ensures goes { (start : List Deed) (s : State) (i : ℕ) (p : Party) → IsRun start s →
        slice_get s.parties i ≡ Some p → is_unfinished p ≡ true →
        (j : ℕ) × (is_enabled s j ≡ true) }
    ensures works { (start : List Deed) (s : State) (i : ℕ) (p : Party) → IsRun start s →
        slice_get s.parties i ≡ Some p → IsSome p.work →
        (j : ℕ) × (q : Party) × (slice_get s.parties j ≡ Some q) × IsSome q.work × (is_enabled s j ≡ true) }
    ensures ends { (s : State) (i : ℕ) (how : Finish) → is_enabled s i ≡ true →
        turns_left needs_of (event needs_of s i how) < turns_left needs_of s }
    // So it is where a party gives up the commands that it hasn't begun.
    ensures stops { (start : List Deed) (s : State) (i : ℕ) → IsRun start s → IsRun start (stopped s i) }
{}
