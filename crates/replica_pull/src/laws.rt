//! Laws of cut changes.

ghost use Rattle.std.specs.Prelude.{◌≡◌, ◌≤◌, ◌+◌, ◌++◌, ℕ, List, IsTrue, length, take, drop};
ghost use Rattle.std.specs.List.{list_all};
ghost use Rattle.depot_rows.specs.db_records.declared.change.Change.{Change};
ghost use Rattle.depot_rows.specs.db_records.declared.table.TableId.{TableId};
ghost use Rattle.depot_rows.specs.depot_model.Cut.{cut};
ghost use Rattle.depot_rows.specs.depot_model.Deeds.{Deed};
ghost use Rattle.depot_rows.specs.depot_model.Rules.{has_paths};
ghost use Rattle.depot_rows.specs.depot_model.declared.filter.FilterRule.{FilterRule};
ghost use Rattle.depot_rows.specs.Standing.{HasRows, Stand};
ghost use Rattle.outside_api.specs.Link.{Answers, IsEarlier, text_of};
ghost use Rattle.outside_api.specs.declared.link.Fetched.TheVariants.{Bytes};
ghost use Rattle.recovery.specs.Holding.{joined};
ghost use Rattle.depot_rows.specs.table_changes.Changed.{AllRows, AllFitIn, changed_by, changed_in, no_rows, rows_of};
ghost use Rattle.replica_pull.specs.Cut.{AreCut, cut_changes};
ghost use Rattle.replica_pull.specs.Prefix.{HasFirst, HasFollowed, HasPrefix, IsGoodJournal, IsJournalOf, Moment, first_rows};
ghost use Rattle.replica_pull.specs.Replica.{HasPassed, HasTakenPiece, IsBadPiece, IsNew, IsOfText, beginning};
ghost use Rattle.replica_pull.specs.declared.replica.Replica.{Replica};

/// Changes that are cut make of cut rows what the changes make of the rows, cut, and fit where those do. Rows of a
/// depot, cut, are the rows of the cut depot.
pub fn cut_changes_make_cut_rows()
    ensures rows { (rules : List FilterRule) (whole rows : AllRows) (changes : List Change) →
        AreCut rules whole rows →
        AreCut rules (changed_by whole changes) (changed_by rows (cut_changes rules changes)) }
    ensures fit { (rules : List FilterRule) (whole rows : AllRows) (changes : List Change) →
        AreCut rules whole rows → AllFitIn whole changes → AllFitIn rows (cut_changes rules changes) }
    ensures depot { (rules : List FilterRule) (whole rows : AllRows) (d : List Deed) → AreCut rules whole rows →
        IsTrue (list_all has_paths d) →
        ((table : TableId) → HasRows whole d table) → (table : TableId) → HasRows rows (cut rules d) table }
{}

/// A replica has its master's rows cut to its filter: at first, after the groups that it takes, and after each
/// generation that it passes.
pub fn replicas_keep_cut_rows()
    ensures begun { (rules : List FilterRule) (r : Replica) → IsNew rules r → AreCut rules no_rows (rows_of r.tables) }
    ensures taken { (old new : Replica) (piece : List ℕ) (count : ℕ) (whole : AllRows)
        (has : HasTakenPiece old piece count new) →
        AreCut old.filter whole (rows_of old.tables) →
        AreCut new.filter (changed_by whole (joined has.groups)) (rows_of new.tables) }
    ensures passed { (old new : Replica) (whole : AllRows) → HasPassed old new →
        AreCut old.filter whole (rows_of old.tables) →
        AreCut new.filter (changed_in whole (beginning (old.generation + 1))) (rows_of new.tables) }
{}

/// What a replica has taken of a generation is always the front of its text, in whole groups and a rest: at first and
/// after a generation is passed nothing, then what it was with each piece that stands in the text behind it; and more
/// text changes nothing of that.
pub fn replicas_take_whole_groups()
    ensures begun { (rules : List FilterRule) (r : Replica) (text : List ℕ) → IsNew rules r → IsOfText r text }
    ensures passed { (old new : Replica) (text : List ℕ) → HasPassed old new → IsOfText new text }
    ensures taken { (old new : Replica) (text buffer : List ℕ) (n count : ℕ) → IsOfText old text →
        n ≤ length (drop old.at text) →
        take n buffer ≡ take n (drop old.at text) → HasTakenPiece old (take n buffer) count new → IsOfText new text }
    ensures longer { (r : Replica) (text more : List ℕ) → IsOfText r text → IsOfText r (text ++ more) }
    // Each text of an earlier journal is the front of the text that stands there now.
    ensures earlier { (earlier now : List (List ℕ)) (generation : ℕ) → IsEarlier earlier now →
        (more : List ℕ) × (text_of now generation ≡ text_of earlier generation ++ more) }
{}

/// After pulls one after another, each of which left the replica as it was or did what its link answered, of the
/// journal as it was at an earlier moment, a replica has exactly the groups that lie whole in what it took of its
/// master's journal, and one change more for each generation that it passed. Where the journal is one of whole groups
/// these are its first changes, as many as the replica counts.
pub fn replicas_have_a_prefix()
    ensures prefix { (rules : List FilterRule) (journal : List (List ℕ)) (r : Replica) (moments : List Moment) →
        HasFollowed rules journal r moments → HasPrefix rules journal r }
    ensures first { (rules : List FilterRule) (journal : List (List ℕ)) (generations : List (List (List Change)))
        (r : Replica) →
        HasPrefix rules journal r → IsJournalOf journal generations → HasFirst rules generations r }
{}

/// A master's journal is never a bad feed: a replica that has followed it can take each piece of it that stands where
/// it awaits its next one, whatever was committed since.
pub fn journals_are_good_feeds()
    ensures { (rules : List FilterRule) (journal earlier : List (List ℕ)) (generations : List (List (List Change)))
        (r : Replica) (buffer : List ℕ) (n place : ℕ) →
        HasPrefix rules journal r → IsGoodJournal journal generations → IsEarlier earlier journal →
        Answers earlier r.generation r.at (Bytes n) buffer → IsBadPiece r (take n buffer) place → ⊥ }
{}

/// Where the rows that these changes make stand for a depot, a replica's tables stand for the depot that is cut to its
/// filter.
pub fn replicas_stand_for_cut_depots()
    ensures { (rules : List FilterRule) (generations : List (List (List Change))) (r : Replica) (d : List Deed) →
        HasFirst rules generations r → Stand (first_rows r.changes generations) d →
        Stand (rows_of r.tables) (cut rules d) }
{}
