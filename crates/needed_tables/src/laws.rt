//! Laws of outcomes that were found over the tables of a set.

ghost use Rattle.std.specs.Prelude.{◌≡◌, ℕ, List, [], IsFalse};
ghost use Rattle.command_core.specs.Outcomes.{HasNeeded, IsOutcome};
ghost use Rattle.command_core.specs.declared.outcome.Outcome.{Outcome};
ghost use Rattle.depot_rows.specs.db_records.declared.change.Change.{Change};
ghost use Rattle.depot_rows.specs.db_records.declared.table.TableId.TheVariants.{Rev};
ghost use Rattle.depot_rows.specs.depot_model.Deeds.{Deed};
ghost use Rattle.depot_rows.specs.depot_model.Tables.{writes_table};
ghost use Rattle.depot_rows.specs.depot_model.declared.request.Request.{Request};
ghost use Rattle.depot_rows.specs.Standing.{Stand};
ghost use Rattle.needed_tables.specs.Needed.{AgreeOnChanged, AgreeOnNeeded, AreNeeded};
ghost use Rattle.depot_rows.specs.table_changes.Changed.{AllFitIn, AllRows};

/// Where tables agree with those of a depot on all that a request needs, what is found over them is its outcome over
/// all tables of the depot, if it changes no table that the request doesn't need.
pub fn outcomes_depend_on_their_set_alone()
    ensures { (rows all : AllRows) (from : ℕ) (d : List Deed) (request : Request) (outcome : Outcome) → Stand all d →
        AgreeOnNeeded rows all request →
        AreNeeded request outcome.changes → IsOutcome rows from d request outcome →
        IsOutcome all from d request outcome }
{}

/// Such tables have what the request needs of the depot.
pub fn tables_that_agree_have_what_is_needed()
    ensures { (rows all : AllRows) (d : List Deed) (request : Request) → Stand all d → AgreeOnNeeded rows all request →
        HasNeeded rows d request }
{}

/// An outcome that stores nothing is the request's wherever the archive ends.
pub fn outcomes_that_store_nothing_stand_anywhere()
    ensures { (all : AllRows) (from anywhere : ℕ) (d : List Deed) (request : Request) (outcome : Outcome) →
        IsOutcome all from d request outcome →
        outcome.stores ≡ [] → IsOutcome all anywhere d request outcome }
{}

/// Changes that fit the rows of tables fit those of others that have the same rows in the tables of the changes.
pub fn changes_fit_alike()
    ensures { (rows all : AllRows) (changes : List Change) → AgreeOnChanged rows all changes → AllFitIn rows changes →
        AllFitIn all changes }
{}

/// A request that doesn't write the table of revisions stores nothing.
pub fn commands_that_write_no_revisions_store_nothing()
    ensures { (all : AllRows) (from : ℕ) (d : List Deed) (request : Request) (outcome : Outcome) →
        IsFalse (writes_table request.command Rev) →
        IsOutcome all from d request outcome → outcome.stores ≡ [] }
{}
