//! Laws of the definitions.

ghost use Rattle.std.specs.Prelude.{◌≡◌, ◌⊎◌, ◌≤◌, ◌<◌, ℕ, List, [], ◌∷◌, ◌++◌, length, Contains, IsSome, Option, Ok, true, false};
ghost use Rattle.db_records.specs.depot_path.Name.{is_name};
ghost use Rattle.protect_table.specs.Line.{table_of, line_of};
ghost use Rattle.protect_table.specs.Rights.{names};
ghost use Rattle.protect_table.specs.declared.line.ProtectLine.{ProtectLine};
ghost use Rattle.depot_model.specs.declared.request.Caller.{Caller};
ghost use Rattle.depot_model.specs.Asking.{who_of, may_at, may_anywhere};
ghost use Rattle.depot_model.specs.Deeds.{Deed, Count, Guard, Landing};
ghost use Rattle.depot_model.specs.Numbers.{top, pending, landings};
ghost use Rattle.depot_model.specs.Records.{SameRows};
ghost use Rattle.depot_model.specs.Rules.{IsSound, NotBoth};
ghost use Rattle.depot_model.specs.Steps.Counters.{counter_show};
ghost use Rattle.depot_model.specs.Steps.Submitting.{landing_number};
ghost use Rattle.depot_model.specs.WellFormed.{is_free};

/// The depot in which nothing was done is sound.
pub fn empty_depot_is_sound()
    ensures { IsSound [] }
{}

/// Setting or deleting a counter that the program doesn't keep itself leaves a sound depot sound.
pub fn counters_keep_depots_sound()
    ensures { (d : List Deed) (name : List ℕ) (value : Option ℕ) → IsSound d → is_name name ≡ true →
        is_free name ≡ true → IsSound (Count name value ∷ d) }
{}

/// The greatest number of a change never falls, no landed change has a greater one, and a pending change, or the
/// default one, lands under a number above those of all that landed before.
pub fn numbers_rise()
    ensures never_falls { (d : List Deed) (deed : Deed) → top d ≤ top (deed ∷ d) }
    ensures landed { (d : List Deed) (l : Landing) → Contains (landings d) l → l.change ≤ top d }
    ensures lands_above { (d : List Deed) (n : ℕ) (l : Landing) → NotBoth d → (n ≡ 0) ⊎ IsSome (pending d n) →
        Contains (landings d) l →
        l.change < landing_number d n }
{}

/// Depots with the same rows tell the same of a counter.
pub fn same_rows_tell_same_counters()
    ensures { (d e : List Deed) (name : List ℕ) → SameRows d e → counter_show d name ≡ counter_show e name }
{}

/// Where a protections table has lines, one more at its end for another user, group or host changes no right of the
/// caller.
pub fn later_lines_of_others_change_nothing()
    ensures at_a_path { (d : List Deed) (lines : List (List ℕ)) (line : List ℕ) (read : List ProtectLine) (other : ProtectLine)
        (caller : Caller) (path : List ℕ) (need : ℕ) →
        table_of lines ≡ Ok read → line_of line ≡ Ok other → names (who_of d caller) other ≡ false → 1 ≤ length read →
        may_at (Guard (lines ++ line ∷ []) ∷ d) caller path need ≡ may_at (Guard lines ∷ d) caller path need }
    ensures somewhere { (d : List Deed) (lines : List (List ℕ)) (line : List ℕ) (read : List ProtectLine) (other : ProtectLine)
        (caller : Caller) (need : ℕ) →
        table_of lines ≡ Ok read → line_of line ≡ Ok other → names (who_of d caller) other ≡ false → 1 ≤ length read →
        may_anywhere (Guard (lines ++ line ∷ []) ∷ d) caller need ≡ may_anywhere (Guard lines ∷ d) caller need }
{}
