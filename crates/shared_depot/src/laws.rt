//! A law of replicas that follow a depot at work.
ghost use Rattle.std.specs.Prelude.{◌<◌, ◌^◌, ℕ, List, map};
ghost use Rattle.archive_file.specs.declared.archive.Archive.{Archive as AnyArchive};
ghost use Rattle.depot_commit.specs.Growing.{generations_of};
ghost use Rattle.depot_rows.specs.Standing.{Stand};
ghost use Rattle.depot_rows.specs.depot_model.Cut.{cut};
ghost use Rattle.depot_rows.specs.depot_model.Deeds.{Deed};
ghost use Rattle.depot_rows.specs.depot_model.declared.filter.FilterRule.{FilterRule};
ghost use Rattle.depot_rows.specs.table_changes.Changed.{rows_of};
ghost use Rattle.locked_tables.specs.Taken.{placed_of};
ghost use Rattle.locked_tables.specs.declared.taken.Taken.{Taken as AnyTaken};
ghost use Rattle.replica_pull.specs.Prefix.{HasFollowed, IsGoodJournal, Moment, bytes_of};
ghost use Rattle.replica_pull.specs.declared.replica.Replica.{Replica as AnyReplica};
ghost use Rattle.replica_turns.specs.Master.{AllFit, IsNth};
ghost use Rattle.shared_depot.specs.Common.{HasAllStored, chronicle_after};
ghost use Rattle.shared_depot.specs.Link.{TellsJournal};

use crate::serving::Serving;
use outside_api::Disk;

/// What holds of a replica that followed what a link tells.
pub fn depots_are_followed<D: Disk, N: Serving>()
    // Its rows stand for the depot after so many changes as it has taken, cut to its filter, beside each archive in
    // which the contents of the places were stored that the link's party knew, as they are in the depot's once all
    // threads have ended.
    ensures stands { (order : List AnyTaken) (texts : List (List ℕ)) (archive : AnyArchive D) (rules : List FilterRule)
        (moments : List Moment) (r : AnyReplica) →
        (told : TellsJournal D.says N.end N.images N.begins N.masters order texts) →
        HasAllStored D.says N.end N.images N.begins order archive → HasFollowed rules texts r moments →
        (d : List Deed) × IsNth told.past told.start (map placed_of order) r.changes d ×
        Stand (rows_of r.tables) (cut rules d) }
    // Where the changes before the run fit, and the journal is below 2^63 bytes, it is no bad feed.
    ensures good { (order : List AnyTaken) (texts : List (List ℕ)) →
        (told : TellsJournal D.says N.end N.images N.begins N.masters order texts) → AllFit told.past.journal →
        bytes_of texts < 2 ^ 63 →
        IsGoodJournal texts (generations_of (chronicle_after told.first order)) }
{}
