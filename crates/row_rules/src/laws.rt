//! Laws of the rules.

ghost use Rattle.std.specs.Prelude.{List};
ghost use Rattle.depot_rows.specs.depot_model.Deeds.{Deed};
ghost use Rattle.depot_rows.specs.depot_model.Rules.{KeepRules};
ghost use Rattle.depot_rows.specs.Standing.{Stand};
ghost use Rattle.depot_rows.specs.table_changes.Changed.{rows_of};
ghost use Rattle.row_rules.specs.Stored.{stored};

use depot_rows::tables::Tables;

/// The rows of tables that stand for a depot keep the rules.
pub fn rows_of_depots_keep_rules(tables: &Tables)
    ensures { (d : List Deed) → Stand (rows_of tables.now) d → KeepRules (stored tables.now) }
{
    // the clauses alone speak of it
    let _tables = tables;
}
