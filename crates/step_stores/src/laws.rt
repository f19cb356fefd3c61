//! Laws of steps that store contents.

ghost use Rattle.std.specs.Prelude.{List, ℕ};
ghost use Rattle.depot_rows.specs.depot_model.Deeds.{Deed};
ghost use Rattle.depot_rows.specs.depot_model.Step.{Step as ModelStep};
ghost use Rattle.reply_rows.specs.Made.{IsMade};
ghost use Rattle.reply_rows.specs.declared.step.Step.{Step};
ghost use Rattle.step_stores.specs.Stored.{IsStoring, NothingLands};
ghost use Rattle.depot_rows.specs.table_changes.Changed.{AllRows};

/// A step that stores nothing is one that stores what it has to, where the model's submits no change.
pub fn steps_without_a_submit_store_nothing()
    ensures { (all : AllRows) (from : ℕ) (d : List Deed) (told : ModelStep) (step : Step) → IsMade all d d told step →
        NothingLands told.deeds → IsStoring all from d told step }
{}
