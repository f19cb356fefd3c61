//! Laws of requests over depots.

ghost use Rattle.std.specs.Prelude.{◌≡◌, List, IsTrue};
ghost use Rattle.depot_rows.specs.depot_model.declared.request.Request.{Request};
ghost use Rattle.depot_rows.specs.depot_model.Commands.{step};
ghost use Rattle.depot_rows.specs.depot_model.Deeds.{Deed};
ghost use Rattle.depot_rows.specs.depot_model.Records.{SameRows};
ghost use Rattle.depot_rows.specs.depot_model.Rules.{IsSound};
ghost use Rattle.depot_rows.specs.depot_model.Step.{after};
ghost use Rattle.depot_rows.specs.declared.deed.Deed.{Deed as Done};
ghost use Rattle.depot_rows.specs.Effects.{Follow};
ghost use Rattle.depot_facts.specs.Contents.{SameContents};
ghost use Rattle.sound_requests.specs.Asked.{IsAsked, is_typed};

/// A request whose command, if it has one, is well-formed, whose contents are no longer than a block of a script, and
/// whose parts are of their types leaves a sound depot sound.
pub fn steps_keep_depots_sound()
    ensures { (d : List Deed) (request : Request) → IsSound d → IsAsked request → IsTrue (is_typed request) →
        IsSound (after d (step d request).deeds) }
{}

/// Over sound depots with the same rows and contents a request does the same and is answered alike; where what it does
/// may follow the one depot, both have the same rows after it, and both have the same contents after it.
pub fn depots_with_the_same_rows_and_contents_answer_alike()
    ensures step { (d e : List Deed) (request : Request) → IsSound d → IsSound e → SameRows d e → SameContents d e →
        step d request ≡ step e request }
    ensures rows { (d e : List Deed) (request : Request) (dones : List Done) → IsSound d → IsSound e → SameRows d e →
        SameContents d e →
        Follow d dones (step d request).deeds →
        SameRows (after d (step d request).deeds) (after e (step e request).deeds) }
    ensures contents { (d e : List Deed) (deeds : List Deed) → IsSound d → IsSound e → SameRows d e → SameContents d e →
        SameContents (after d deeds) (after e deeds) }
{}
