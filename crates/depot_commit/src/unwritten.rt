//! Places at which nothing is written.

ghost use Rattle.std.specs.Prelude.{◌≡◌, ℕ, List, false};
ghost use Rattle.command_core.specs.declared.outcome.Outcome.{Outcome};
ghost use Rattle.depot_rows.specs.depot_model.Commands.{step};
ghost use Rattle.depot_rows.specs.depot_model.Deeds.{Deed};
ghost use Rattle.depot_rows.specs.depot_model.Places.{Placed, taken};
ghost use Rattle.depot_rows.specs.table_changes.Changed.{AllRows};
ghost use Rattle.session_loop.specs.Taking.{Answers, IsProper};
ghost use Rattle.depot_commit.specs.Committing.{IsOutcomeOf};
ghost use Rattle.depot_commit.specs.Placing.{LeavesRows};
ghost use Rattle.depot_commit.specs.Telling.{IsReplyOf, IsTold, IsUnwritten};

use crate::landing::answer_told;
use crate::telling::Told;
use depot_rows::model::{Answer, Request};
use sound_requests::requests_are_typed;

/// Gives its place to a command that changes nothing, or for whose reply a content couldn't be read; then the place is
/// that of a fault. No call of a disk is made, and neither the tables nor the journal are needed.
pub fn place_unwritten(request: &Request, told: Told) -> Answer
    requires unwritten { IsUnwritten told }
    ensures fault { result.place.fault ≡ told.unread }
    ensures answers { (start : List Deed) (places : List Placed) (outcome : Outcome) →
        IsTold outcome request.now.number told → IsReplyOf (taken step start places) request.now told →
        Answers start places request.now result }
    // Where all could be read the command leaves the rows over which its outcome was found.
    ensures leaves { (rows : AllRows) (from : ℕ) (outcome : Outcome) → IsProper request.now →
        IsOutcomeOf rows from request.now outcome → IsTold outcome request.now.number told →
        told.unread ≡ false → LeavesRows rows request.now }
{
    requests_are_typed(request);
    let unread = told.is_unread();
    answer_told(request, told, unread)
}
