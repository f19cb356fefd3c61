//! The law of all requests and sound depots.

ghost use Rattle.std.specs.Prelude.{List, IsTrue};
ghost use Rattle.depot_rows.specs.depot_model.declared.request.Request.{Request};
ghost use Rattle.depot_rows.specs.depot_model.Commands.{step};
ghost use Rattle.depot_rows.specs.depot_model.Deeds.{Deed};
ghost use Rattle.depot_rows.specs.depot_model.Rules.{IsSound};
ghost use Rattle.depot_rows.specs.depot_model.Step.{after};
ghost use Rattle.sound_requests.specs.Asked.{IsAsked, is_typed};

/// The step of a request leaves a sound depot sound, where its command, if it has one, is well-formed, its contents
/// are no longer than a block of a script, and its parts are of their types.
pub fn requests_keep_depots_sound()
    ensures { (d : List Deed) (request : Request) → IsSound d → IsAsked request → IsTrue (is_typed request) →
        IsSound (after d (step d request).deeds) }
{}
