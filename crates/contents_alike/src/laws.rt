//! The law of two depots that stand in one archive.

ghost use Rattle.std.specs.Prelude.{List, ℕ};
ghost use Rattle.depot_rows.specs.depot_model.Deeds.{Deed};
ghost use Rattle.depot_rows.specs.depot_model.Records.{SameRows};
ghost use Rattle.depot_rows.specs.depot_model.Rules.{IsSound};
ghost use Rattle.depot_rows.specs.Standing.{Stand};
ghost use Rattle.depot_facts.specs.Contents.{SameContents};
ghost use Rattle.recovery.specs.Standing.{HasContents};
ghost use Rattle.depot_rows.specs.table_changes.Changed.{AllRows};

/// Two depots for which the same rows stand have the same rows; and where one archive's file has the contents of both
/// at the spots of the same rows, sound depots with the same rows have the same contents.
pub fn depots_of_one_archive_have_the_same_contents()
    ensures rows { (rows : AllRows) (d e : List Deed) → Stand rows d → Stand rows e → SameRows d e }
    ensures contents { (file : List ℕ) (rows : AllRows) (d e : List Deed) → HasContents file rows d →
        HasContents file rows e → SameRows d e →
        IsSound d → IsSound e → SameContents d e }
{}
