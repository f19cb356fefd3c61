//! The law of two depots with the same rows and contents.

ghost use Rattle.std.specs.Prelude.{◌≡◌, List};
ghost use Rattle.depot_rows.specs.depot_model.declared.request.Request.{Request};
ghost use Rattle.depot_rows.specs.depot_model.Commands.{step};
ghost use Rattle.depot_rows.specs.depot_model.Deeds.{Deed};
ghost use Rattle.depot_rows.specs.depot_model.Records.{SameRows};
ghost use Rattle.depot_rows.specs.depot_model.Rules.{IsSound};
ghost use Rattle.depot_rows.specs.depot_model.Step.{after};
ghost use Rattle.depot_rows.specs.declared.deed.Deed.{Deed as Done};
ghost use Rattle.depot_rows.specs.Effects.{Follow};
ghost use Rattle.depot_facts.specs.Contents.{SameContents};

/// Over two sound depots with the same rows and contents the step of every request is the same: the same deeds, and the
/// same rows of the reply. Where these deeds may follow the one depot, both have the same rows after them; and after
/// the same deeds both have the same contents.
pub fn depots_with_the_same_rows_and_contents_answer_alike()
    ensures step { (d e : List Deed) (request : Request) →
        IsSound d → IsSound e → SameRows d e → SameContents d e → step d request ≡ step e request }
    ensures rows { (d e : List Deed) (request : Request) (dones : List Done) →
        IsSound d → IsSound e → SameRows d e → SameContents d e →
        Follow d dones (step d request).deeds →
        SameRows (after d (step d request).deeds) (after e (step e request).deeds) }
    ensures contents { (d e : List Deed) (deeds : List Deed) → IsSound d → IsSound e → SameRows d e → SameContents d e →
        SameContents (after d deeds) (after e deeds) }
{}
