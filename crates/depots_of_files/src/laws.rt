//! The law of files that hold rows whole.

ghost use Rattle.std.specs.Prelude.{List};
ghost use Rattle.outside_api.specs.Disk.{Files};
ghost use Rattle.depot_rows.specs.depot_model.Deeds.{Deed};
ghost use Rattle.depot_rows.specs.table_changes.Changed.{AllRows};
ghost use Rattle.recovery.specs.Contents.{HoldWhole};
ghost use Rattle.recovery.specs.Standing.{StandFor};

/// Files that hold rows which suit them, and the contents of live revisions, stand for a depot, and no others do.
/// `open_files` opens them, a fault of a disk and want of memory aside, and no others: so it answers that they are
/// unmade or damaged exactly where they stand for no depot.
pub fn whole_files_stand_for_depots()
    ensures some { (journal archive : Files) (rows : AllRows) → HoldWhole journal archive rows →
        (d : List Deed) × StandFor d journal archive }
    ensures no_others { (journal archive : Files) (d : List Deed) → StandFor d journal archive →
        (rows : AllRows) × HoldWhole journal archive rows }
{}
