//! Laws of the tables that a command writes.

ghost use Rattle.std.specs.Prelude.{◌≡◌, ℕ, List, ◌∷◌, Ok, IsTrue, IsFalse};
ghost use Rattle.std.specs.List.{list_all};
ghost use Rattle.depot_model.specs.db_records.Key.{key_table};
ghost use Rattle.depot_model.specs.db_records.declared.key.Key.{Key};
ghost use Rattle.depot_model.specs.db_records.declared.table.TableId.TheVariants.{Rev};
ghost use Rattle.depot_model.specs.Commands.{step};
ghost use Rattle.depot_model.specs.Deeds.{Deed};
ghost use Rattle.depot_model.specs.Numbers.{landings};
ghost use Rattle.depot_model.specs.Records.{record_of};
ghost use Rattle.depot_model.specs.Revisions.{revisions};
ghost use Rattle.depot_model.specs.Step.{after};
ghost use Rattle.depot_model.specs.Steps.Submitting.{content_at};
ghost use Rattle.depot_model.specs.Tables.{is_in, own_tables, writes};
ghost use Rattle.depot_model.specs.declared.command.Command.{Command};
ghost use Rattle.depot_model.specs.declared.request.Request.{Request};
ghost use Rattle.step_tables.specs.DeedTables.{deed_tables, stays_in};

/// A deed changes no row of a table that isn't one of its own.
pub fn deeds_change_rows_of_their_tables_alone()
    ensures { (d : List Deed) (deed : Deed) (key : Key) → IsFalse (is_in (deed_tables deed) (key_table key)) →
        record_of (deed ∷ d) key ≡ record_of d key }
{}

/// The step of a request, over any depot, changes rows of no other tables than those that its command writes:
/// the tables of its deeds are among them, and every row of another table stays.
pub fn steps_change_rows_of_written_tables_alone()
    ensures deeds { (d : List Deed) (request : Request) (command : Command) → request.command ≡ Ok command →
        IsTrue (list_all (stays_in (own_tables command).written) (step d request).deeds) }
    ensures rows { (d : List Deed) (request : Request) (command : Command) (key : Key) → request.command ≡ Ok command →
        IsFalse (writes command (key_table key)) → record_of (after d (step d request).deeds) key ≡ record_of d key }
{}

/// The step of a request whose command doesn't write the table of revisions lands no change: revisions and their
/// contents stay as they were.
pub fn steps_that_write_no_revisions_land_nothing()
    ensures landings { (d : List Deed) (request : Request) (command : Command) → request.command ≡ Ok command →
        IsFalse (writes command Rev) → landings (after d (step d request).deeds) ≡ landings d }
    ensures revisions { (d : List Deed) (request : Request) (command : Command) (path : List ℕ) →
        request.command ≡ Ok command →
        IsFalse (writes command Rev) → revisions (after d (step d request).deeds) path ≡ revisions d path }
    ensures contents { (d : List Deed) (request : Request) (command : Command) (path : List ℕ) (n : ℕ) →
        request.command ≡ Ok command → IsFalse (writes command Rev) →
        content_at (after d (step d request).deeds) path n ≡ content_at d path n }
{}
