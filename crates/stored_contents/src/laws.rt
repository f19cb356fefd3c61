//! Laws of contents after commands.

ghost use Rattle.std.specs.Prelude.{◌≡◌, List, ℕ, None};
ghost use Rattle.depot_rows.specs.db_records.declared.change.Change.{Change};
ghost use Rattle.depot_rows.specs.db_records.declared.key.Key.{Key};
ghost use Rattle.depot_rows.specs.db_records.declared.table.TableId.TheVariants.{Rev};
ghost use Rattle.depot_rows.specs.depot_model.Deeds.{Deed};
ghost use Rattle.depot_rows.specs.depot_model.Rules.{IsSound};
ghost use Rattle.depot_rows.specs.depot_model.Step.{Step as ModelStep, after};
ghost use Rattle.depot_rows.specs.Effects.{effects};
ghost use Rattle.depot_rows.specs.Standing.{HasRows, row_in};
ghost use Rattle.reply_rows.specs.declared.step.Step.{Step};
ghost use Rattle.row_changes.specs.Differences.{AreDifferences};
ghost use Rattle.step_stores.specs.Stored.{IsStoring};
ghost use Rattle.stored_contents.specs.Placed.{StandAfter};
ghost use Rattle.depot_rows.specs.table_changes.Changed.{AllRows, changed_by};

/// Where a step stores what it has to, and its changes are exactly what differs, with each new row as the deeds make
/// it, each content of the depot after it stands at the spot of its revision's row: where it stood, or where it is
/// stored.
pub fn contents_stand_after_steps()
    ensures { (all : AllRows) (from : ℕ) (d : List Deed) (told : ModelStep) (step : Step) (changes : List Change) →
        IsSound d → HasRows all d Rev →
        IsStoring all from d told step → AreDifferences all d (after d told.deeds) changes →
        ((key : Key) → row_in all key ≡ None →
        row_in (changed_by all changes) key ≡ effects step.deeds (row_in all) key) →
        StandAfter all from d (after d told.deeds) step.stores changes }
{}
