//! The law of rows that keep the rules.

ghost use Rattle.std.specs.Prelude.{List};
ghost use Rattle.depot_rows.specs.depot_model.Deeds.{Deed};
ghost use Rattle.depot_rows.specs.table_changes.Changed.{AllRows};
ghost use Rattle.depot_rows.specs.Standing.{Stand};
ghost use Rattle.depots_of_rows.specs.Telling.{all_unplaced, Contents, KeepAllRules, HasTheseContents};

/// Rows that keep the rules are those of some sound depot, where no line of the protections has the number 0 and the
/// rows of live revisions tell of contents: these are the depot's. The rows of no depot break any of this.
pub fn rows_that_keep_rules_stand()
    ensures some { (rows : AllRows) (contents : Contents) → KeepAllRules contents (all_unplaced rows) →
        (d : List Deed) × (Stand rows d × HasTheseContents contents d) }
    ensures no_others { (rows : AllRows) (d : List Deed) → Stand rows d →
        (contents : Contents) × KeepAllRules contents (all_unplaced rows) }
{}
