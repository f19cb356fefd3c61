//! Laws of a replica's replies.

ghost use Rattle.std.specs.Prelude.{◌≡◌, [], IsFalse, List};
ghost use Rattle.depot_model.specs.Cut.{cut};
ghost use Rattle.depot_model.specs.Deeds.{Deed};
ghost use Rattle.depot_model.specs.Records.{SameRows};
ghost use Rattle.depot_model.specs.Rules.{IsSound};
ghost use Rattle.depot_model.specs.declared.filter.FilterRule.{FilterRule};
ghost use Rattle.depot_model.specs.declared.request.Request.{Request};
ghost use Rattle.depot_runs.specs.Replica.{replica_reply};
ghost use Rattle.depot_facts.specs.Contents.{SameContents};
ghost use Rattle.reply_rows.specs.Made.{contents_of};
ghost use Rattle.replica_replies.specs.Prints.{AreShown, prints};

/// Replicas of two masters reply alike where the masters' depots, cut to the filter, have the same rows and contents.
pub fn masters_that_agree_on_the_cut_are_answered_alike()
    ensures { (rules : List FilterRule) (d e : List Deed) (request : Request) → IsSound d → IsSound e →
        SameRows (cut rules d) (cut rules e) →
        SameContents (cut rules d) (cut rules e) →
        replica_reply (cut rules d) request ≡ replica_reply (cut rules e) request }
{}

/// A replica's reply to anything but `print` has no contents.
pub fn print_alone_is_answered_with_contents()
    ensures { (d : List Deed) (request : Request) → IsFalse (prints request.command) →
        contents_of (replica_reply d request) ≡ [] }
{}

/// Each row of a replica's reply that has a content shows the revision that has it.
pub fn contents_are_those_of_the_revisions_shown()
    ensures { (d : List Deed) (request : Request) → AreShown d (replica_reply d request) }
{}
