//! Laws of replicas that follow a depot which takes commands.

ghost use Rattle.std.specs.Prelude.{◌≡◌, ◌⊎◌, ℕ, Bool, true, List, Result, [], ◌∷◌, ◌++◌, ◌+◌, length};
ghost use Rattle.archive_file.specs.Archive.{disk_of as archive_disk_of};
ghost use Rattle.archive_file.specs.Contents.{IsTold};
ghost use Rattle.depot_commit.specs.command_core.Outcomes.{IsFormedBy, IsOutcome};
ghost use Rattle.depot_commit.specs.command_core.declared.outcome.Outcome.{Outcome};
ghost use Rattle.depot_rows.specs.db_records.declared.change.Change.{Change};
ghost use Rattle.depot_rows.specs.depot_model.Deeds.{Deed};
ghost use Rattle.depot_rows.specs.depot_model.Places.{Placed, taken};
ghost use Rattle.depot_rows.specs.depot_model.Printed.{printed};
ghost use Rattle.depot_rows.specs.depot_model.Rows.{memory_row};
ghost use Rattle.depot_rows.specs.depot_model.declared.filter.FilterRule.{FilterRule};
ghost use Rattle.depot_rows.specs.depot_model.declared.request.Request.{Request};
ghost use Rattle.depot_rows.specs.depot_model.Commands.{step};
ghost use Rattle.disk_journal.specs.Stands.{disk_of};
ghost use Rattle.replica_pull.specs.Prefix.{HasFollowed, IsGoodJournal, Moment};
ghost use Rattle.depot_commit.specs.Committing.{AreRowsAfter};
ghost use Rattle.depot_commit.specs.Growing.{Chronicle, HasGroups, KeepsStored, generations_of, grown};
ghost use Rattle.depot_commit.specs.Opening.{opens_generation};
ghost use Rattle.serial_depot.specs.Running.{HasRun};
ghost use Rattle.serial_depot.specs.declared.depot.SerialDepot.{SerialDepot as AnyDepot};
ghost use Rattle.session_loop.specs.Asking.{AreWellFormed};
ghost use Rattle.session_loop.specs.Taking.{placed_by};
ghost use Rattle.session_loop.specs.declared.reading.ReplicaScript.{ReplicaScript};
ghost use Rattle.depot_rows.specs.table_changes.Changed.{rows_of};
ghost use Rattle.replica_turns.specs.Along.{IsAlong};
ghost use Rattle.replica_turns.specs.Going.{IsFresh, IsTurned, is_lost, reply_text};
ghost use Rattle.replica_turns.specs.Master.{HasGrownTo, IsMaster, Past, texts_in};
ghost use Rattle.replica_turns.specs.Replying.{HasPulledOf, pulls};
ghost use Rattle.replica_turns.specs.Written.{Leave, PairGoesOn};
ghost use Rattle.replica_turns.specs.declared.party.Answered.{Answered};
ghost use Rattle.replica_turns.specs.declared.party.ReplicaParty.{ReplicaParty};

use outside_api::{Clock, Disk};

/// A depot that replicas follow stays one when it takes a command: where rows differ after it, its journal has one
/// change more, and else the changes that it had; where it takes none, they stay. So its journal's texts grow.
pub fn depots_grow_by_their_changes<D: Disk>()
    ensures placed { (past : Past) (start : List Deed) (places : List Placed) (old new : AnyDepot D) (c : Chronicle)
        (since : ℕ) (request : Request) (outcome : Outcome) (fault : Bool) →
        IsMaster D.says past start places old c → HasRun D.says old since start places →
        IsOutcome (rows_of old.tables) old.tables.archive_end (taken step start places) request outcome →
        KeepsStored D.says old.archive new.archive →
        HasRun D.says new since start (places ++ placed_by request fault ∷ []) →
        AreRowsAfter (rows_of old.tables) outcome.changes fault (rows_of new.tables) →
        HasGroups D.says new.journal (grown (opens_generation request) fault outcome.changes c) →
        IsMaster D.says past start (places ++ placed_by request fault ∷ []) new
        (grown (opens_generation request) fault outcome.changes c) }
    ensures kept { (past : Past) (start : List Deed) (places : List Placed) (old new : AnyDepot D) (c : Chronicle) →
        IsMaster D.says past start places old c → rows_of new.tables ≡ rows_of old.tables →
        HasGroups D.says new.journal c → KeepsStored D.says old.archive new.archive →
        IsMaster D.says past start places new c }
    ensures texts { (opens fault : Bool) (changes : List Change) (c : Chronicle) →
        HasGrownTo c (grown opens fault changes c) }
{}

/// What such a depot leaves was written from the first change on: both disks tell what they read, and each pair of
/// images has the changes that were done before and then those among the places, or one more, which a fault place among
/// them would have done.
pub fn depots_leave_what_was_written<D: Disk>()
    ensures { (past : Past) (start : List Deed) (places : List Placed) (depot : AnyDepot D) (c : Chronicle)
        (since : ℕ) →
        HasRun D.says depot since start places → IsMaster D.says past start places depot c →
        Leave D.says (disk_of depot.journal) (archive_disk_of depot.archive) (PairGoesOn past start places) }
{}

/// A replica that follows it goes on telling what it told: each reply other than to `pull` is that of a replica of the
/// depot after the first n changes, cut to its filter, where n is what its last `pull` told, and 0 before one. Its
/// commands are answered after numbers of places that don't fall, the last of them after all places, and each `pull`
/// that tells a position took of the journal as it is after so many.
pub fn replicas_reply_for_their_last_pull<D: Disk, C: Clock>(clock: &C)
    ensures first { (past : Past) (start : List Deed) (places : List Placed) (party : ℕ) (script : ReplicaScript)
        (p : ReplicaParty) (c : Chronicle) →
        IsFresh (C.says.may_give clock.now) party script p → AreWellFormed script.session.commands →
        IsAlong past start places (C.says.may_give clock.now) party script p c [] [] }
    ensures grown { (past : Past) (start : List Deed) (places more : List Placed) (party : ℕ) (script : ReplicaScript)
        (p : ReplicaParty) (c now : Chronicle) (counts : List ℕ) (texts : List (List ℕ)) →
        HasGrownTo c now → IsAlong past start places (C.says.may_give clock.now) party script p c counts texts →
        IsAlong past start (places ++ more) (C.says.may_give clock.now) party script p now counts texts }
    ensures turned { (past : Past) (start : List Deed) (places : List Placed) (depot : AnyDepot D) (bytes : List ℕ)
        (party : ℕ) (script : ReplicaScript) (old new : ReplicaParty) (c : Chronicle) (counts : List ℕ)
        (texts : List (List ℕ)) (result : Result Answered (Unit {0})) →
        IsMaster D.says past start places depot c → IsTold D.says depot.archive bytes →
        IsAlong past start places (C.says.may_give clock.now) party script old c counts texts →
        IsTurned D.says depot old new result →
        IsAlong past start places (C.says.may_give clock.now) party script new c (counts ++ length places ∷ [])
        (texts ++ reply_text result (length texts + 1) ∷ []) }
{
    // the clauses alone speak of it
    let _clock = clock;
}

/// A pull moves: over a depot whose journal has these groups, whose changes fit, below 2^63 bytes, each `pull` of a
/// replica that has followed it, unless it tells that a disk failed or that there was no memory, takes at least one
/// byte of what is committed then, passes to the next generation, or finds all of it taken.
pub fn pulls_move<D: Disk>()
    ensures { (depot : AnyDepot D) (c : Chronicle) (rules : List FilterRule) (moments : List Moment)
        (old new : ReplicaParty) (result : Result Answered (Unit {0})) →
        HasGroups D.says depot.journal c → IsGoodJournal (texts_in c) (generations_of c) →
        HasFollowed rules (texts_in c) old.replica moments →
        (turn : IsTurned D.says depot old new result) → IsFormedBy turn.request → pulls turn.request.command ≡ true →
        (is_lost result ≡ true) ⊎ ((reply_text result turn.request.number ≡ printed (memory_row ∷ []) turn.request.number) ⊎ HasPulledOf (texts_in c) old.replica new.replica) }
{}
