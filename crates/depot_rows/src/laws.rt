//! Laws of the rows of a depot.

ghost use Rattle.std.specs.List.{list_all};
ghost use Rattle.std.specs.Prelude.{◌≡◌, ◌⊎◌, ◌<◌, ℕ, List, ◌∷◌, Some, None, IsSome, IsTrue, IsFalse};
ghost use Rattle.depot_model.specs.db_records.declared.table.TableId.{TableId};
ghost use Rattle.table_changes.specs.Changed.{AllRows};
ghost use Rattle.depot_model.specs.declared.filter.FilterRule.{FilterRule};
ghost use Rattle.depot_model.specs.Cut.{cut};
ghost use Rattle.depot_model.specs.Deeds as model;
ghost use Rattle.depot_model.specs.depot_path.Path.{is_path};
ghost use Rattle.depot_model.specs.db_records.declared.key.Key.{Key};
ghost use Rattle.depot_model.specs.db_records.declared.key.Key.TheVariants as keys;
ghost use Rattle.depot_model.specs.Numbers.{pending, landing, top};
ghost use Rattle.depot_model.specs.Opened.{holder};
ghost use Rattle.depot_model.specs.Records.{record_of, SameRows};
ghost use Rattle.depot_model.specs.Rules.{Rows, NotBoth, IsSound, has_paths};
ghost use Rattle.depot_model.specs.Step.{after};
ghost use Rattle.depot_model.specs.Steps.Submitting.{landing_of, openings_of};
ghost use Rattle.depot_model.specs.declared.request.Request.{Request};
ghost use Rattle.depot_rows.specs.declared.deed.Deed.{Deed};
ghost use Rattle.depot_rows.specs.declared.deed.Held.{Held};
ghost use Rattle.depot_rows.specs.declared.deed.Landing.{Landing};
ghost use Rattle.depot_rows.specs.Cut.{cut_rows};
ghost use Rattle.depot_rows.specs.Deed.{IsDeed, IsLanding};
ghost use Rattle.depot_rows.specs.Effects.{effect, effects, May, Follow, AreRowsIn, IsFree, AreOfPaths, is_submitted};
ghost use Rattle.depot_rows.specs.Needs.{Needs};
ghost use Rattle.depot_rows.specs.Standing.{HasRows, Stand};

/// Rows that stand for a depot are its rows in each table.
pub fn standing_rows_are_those_of_the_depot()
    ensures { (rows : AllRows) (d : List model.Deed) (table : TableId) → Stand rows d → HasRows rows d table }
{}

/// A deed does to the rows of each table what it does to the depot: a dropped change needs not to have landed, paths
/// need to be paths, and no other deed needs anything. That no number is both pending and landed is one of the clauses
/// of a sound depot, and stays so.
pub fn deeds_do_to_rows_what_they_do_to_depots()
    ensures least { (table : TableId) (before : Rows) (d : List model.Deed) (done : Deed) (deed : model.Deed) →
        AreRowsIn before d table → IsDeed d done deed → Needs done d → AreRowsIn (effect done before) (deed ∷ d) table }
    ensures needed { (d : List model.Deed) (done : Deed) → NotBoth d → May done (record_of d) → Needs done d }
    ensures rows { (table : TableId) (before : Rows) (d : List model.Deed) (done : Deed) (deed : model.Deed) →
        AreRowsIn before d table → NotBoth d → IsDeed d done deed → May done (record_of d) →
        AreRowsIn (effect done before) (deed ∷ d) table }
    ensures apart { (d : List model.Deed) (done : Deed) (deed : model.Deed) →
        NotBoth d → IsDeed d done deed → May done (record_of d) → NotBoth (deed ∷ d) }
{}

/// The rows after deeds are their effects in turn.
pub fn deeds_do_so_in_turn()
    ensures rows { (table : TableId) (before : Rows) (d : List model.Deed) (dones : List Deed)
        (deeds : List model.Deed) →
        AreRowsIn before d table → NotBoth d → Follow d dones deeds →
        AreRowsIn (effects dones before) (after d deeds) table }
    ensures apart { (d : List model.Deed) (dones : List Deed) (deeds : List model.Deed) →
        NotBoth d → Follow d dones deeds → NotBoth (after d deeds) }
{}

/// Deeds that may follow a depot may follow each other one with the same rows, and leave both with the same rows.
pub fn depots_with_the_same_rows_stay_so()
    ensures follow { (d e : List model.Deed) (dones : List Deed) (deeds : List model.Deed) →
        SameRows d e → NotBoth d → NotBoth e → Follow d dones deeds → Follow e dones deeds }
    ensures rows { (d e : List model.Deed) (dones : List Deed) (deeds : List model.Deed) →
        SameRows d e → NotBoth d → NotBoth e → Follow d dones deeds → SameRows (after d deeds) (after e deeds) }
{}

/// What commands find of a depot lets their deeds follow it: a change that hasn't landed, that is pending, or whose
/// number is above all others, isn't submitted; a file whose lock nobody else has may be locked; and the files of a
/// submitted change are paths, each once.
pub fn deeds_of_commands_may_follow()
    ensures unlanded { (d : List model.Deed) (n : ℕ) → landing d n ≡ None →
        IsFalse (is_submitted (record_of d (keys.Change n))) }
    ensures pending { (d : List model.Deed) (n : ℕ) → IsSome (pending d n) →
        IsFalse (is_submitted (record_of d (keys.Change n))) }
    ensures above { (d : List model.Deed) (n : ℕ) → IsSound d → top d < n →
        IsFalse (is_submitted (record_of d (keys.Change n))) }
    ensures free { (d : List model.Deed) (held : Held) → IsTrue (is_path held.path) →
        (holder d held.path ≡ None) ⊎ (holder d held.path ≡ Some held.client) → IsFree held (record_of d) }
    ensures landed { (d : List model.Deed) (request : Request) (n : ℕ) (text : List ℕ) (l : Landing) → IsSound d →
        IsLanding d l (landing_of d request n text (openings_of d request.caller n)) → AreOfPaths l.entries }
{}

/// The rows of a depot without the files outside a filter are the rows of the depot without those of these files. That
/// a deed speaks of paths is one of the clauses of a sound depot.
pub fn rows_of_a_cut_depot_are_the_rows_cut()
    ensures { (rules : List FilterRule) (d : List model.Deed) (q : Key) →
        IsTrue (list_all has_paths d) → record_of (cut rules d) q ≡ cut_rows rules (record_of d) q }
{}
