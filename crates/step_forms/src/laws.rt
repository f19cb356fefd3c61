//! Laws of the forms that a command saves.

ghost use Rattle.std.specs.Prelude.{◌≡◌, ℕ, List, Ok, IsTrue, IsFalse};
ghost use Rattle.std.specs.List.{list_all};
ghost use Rattle.depot_model.specs.Commands.{step};
ghost use Rattle.depot_model.specs.Deeds.{Deed, SpecKind};
ghost use Rattle.depot_model.specs.Latest.{spec};
ghost use Rattle.depot_model.specs.Step.{after};
ghost use Rattle.depot_model.specs.declared.command.Command.{Command};
ghost use Rattle.depot_model.specs.declared.request.Request.{Request};
ghost use Rattle.step_forms.specs.SavedForms.{saved_kinds, is_kind_in, saves_in};

/// The step of a request, over any depot, saves no forms of other kinds than those that its command saves:
/// the kinds of the forms of its deeds are among them, and every form of another kind stays.
pub fn steps_save_forms_of_their_kinds_alone()
    ensures deeds { (d : List Deed) (request : Request) (command : Command) → request.command ≡ Ok command →
        IsTrue (list_all (saves_in (saved_kinds command)) (step d request).deeds) }
    ensures forms { (d : List Deed) (request : Request) (command : Command) (kind : SpecKind) (name : List ℕ) →
        request.command ≡ Ok command → IsFalse (is_kind_in (saved_kinds command) kind) →
        spec (after d (step d request).deeds) kind name ≡ spec d kind name }
{}
