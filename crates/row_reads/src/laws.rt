//! Laws of what commands read of a depot.

ghost use Rattle.std.specs.Prelude.{◌≡◌, ℕ, List};
ghost use Rattle.depot_rows.specs.depot_model.declared.request.Caller.{Caller};
ghost use Rattle.depot_rows.specs.depot_model.Asking.{may_at, may_anywhere};
ghost use Rattle.depot_rows.specs.depot_model.Deeds.{Deed};
ghost use Rattle.depot_rows.specs.depot_model.Records.{SameRows};
ghost use Rattle.depot_rows.specs.depot_model.Rules.{IsSound};

/// Depots with the same rows give a caller the same rights.
pub fn depots_with_the_same_rows_give_the_same_rights()
    ensures at_a_path { (d e : List Deed) (caller : Caller) (path : List ℕ) (need : ℕ) → IsSound d → IsSound e →
        SameRows d e →
        may_at d caller path need ≡ may_at e caller path need }
    ensures somewhere { (d e : List Deed) (caller : Caller) (need : ℕ) → IsSound d → IsSound e → SameRows d e →
        may_anywhere d caller need ≡ may_anywhere e caller need }
{}
