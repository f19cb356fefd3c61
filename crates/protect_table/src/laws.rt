//! Laws of the rights.

ghost use Rattle.std.specs.Prelude.{◌≡◌, ◌≤◌, ℕ, Bool, true, false, List, [], ◌∷◌, ◌++◌, length, nat_le};
ghost use Rattle.std.specs.List.{list_all};
ghost use Rattle.depot_path.specs.Path.{begins_with_slashes};
ghost use Rattle.protect_table.specs.Mode.{denies, is_single};
ghost use Rattle.protect_table.specs.Rights.{names, is_whole, is_ordinary, may, may_any, level, any_level};
ghost use Rattle.protect_table.specs.declared.line.ProtectLine.{ProtectLine};
ghost use Rattle.protect_table.specs.declared.who.Who.{Who};

/// A line for another user, group or host changes nothing, where there are other lines.
pub fn other_lines_change_nothing()
    ensures at_a_path { (before after : List ProtectLine) (line : ProtectLine) (who : Who) (path : List ℕ) (need : ℕ) →
        names who line ≡ false → 1 ≤ length (before ++ after) →
        may (before ++ line ∷ after) who path need ≡ may (before ++ after) who path need }
    ensures somewhere { (before after : List ProtectLine) (line : ProtectLine) (who : Who) (need : ℕ) →
        names who line ≡ false → 1 ≤ length (before ++ after) →
        may_any (before ++ line ∷ after) who need ≡ may_any (before ++ after) who need }
{}

/// An exclusion of the whole tree for the caller takes every need that it denies away everywhere, which are all needs where its mode is ordinary:
/// the lines before it count for nothing, and where it stands last nothing is granted.
pub fn whole_exclusions_deny()
    ensures earlier_at_a_path { (before after : List ProtectLine) (line : ProtectLine) (who : Who) (path : List ℕ) (need : ℕ) →
        line.excludes ≡ true → is_whole line.path ≡ true → names who line ≡ true → denies line.mode need ≡ true → begins_with_slashes path ≡ true →
        may (before ++ line ∷ after) who path need ≡ may (line ∷ after) who path need }
    ensures earlier_somewhere { (before after : List ProtectLine) (line : ProtectLine) (who : Who) (need : ℕ) →
        line.excludes ≡ true → is_whole line.path ≡ true → names who line ≡ true → denies line.mode need ≡ true →
        may_any (before ++ line ∷ after) who need ≡ may_any (line ∷ after) who need }
    ensures at_a_path { (lines : List ProtectLine) (line : ProtectLine) (who : Who) (path : List ℕ) (need : ℕ) →
        line.excludes ≡ true → is_whole line.path ≡ true → names who line ≡ true → denies line.mode need ≡ true → begins_with_slashes path ≡ true →
        may (lines ++ line ∷ []) who path need ≡ false }
    ensures somewhere { (lines : List ProtectLine) (line : ProtectLine) (who : Who) (need : ℕ) →
        line.excludes ≡ true → is_whole line.path ≡ true → names who line ≡ true → denies line.mode need ≡ true →
        may_any (lines ++ line ∷ []) who need ≡ false }
    ensures ordinary { (line : ProtectLine) (need : ℕ) → is_single line.mode ≡ false → denies line.mode need ≡ true }
{}

/// Where every line has an ordinary mode, a need that is granted grants every lower need.
pub fn lower_needs_are_granted()
    ensures at_a_path { (lines : List ProtectLine) (who : Who) (path : List ℕ) (lower need : ℕ) → list_all is_ordinary lines ≡ true → lower ≤ need →
        may lines who path need ≡ true → may lines who path lower ≡ true }
    ensures somewhere { (lines : List ProtectLine) (who : Who) (lower need : ℕ) → list_all is_ordinary lines ≡ true → lower ≤ need →
        may_any lines who need ≡ true → may_any lines who lower ≡ true }
{}

/// A level is the greatest need that is granted, and 0 where none is.
pub fn levels_are_the_greatest()
    ensures granted { (lines : List ProtectLine) (who : Who) (path : List ℕ) → 1 ≤ level lines who path → may lines who path (level lines who path) ≡ true }
    ensures greatest { (lines : List ProtectLine) (who : Who) (path : List ℕ) (need : ℕ) → 1 ≤ need → need ≤ 6 →
        may lines who path need ≡ true → need ≤ level lines who path }
    ensures granted_somewhere { (lines : List ProtectLine) (who : Who) → 1 ≤ any_level lines who → may_any lines who (any_level lines who) ≡ true }
    ensures greatest_somewhere { (lines : List ProtectLine) (who : Who) (need : ℕ) → 1 ≤ need → need ≤ 6 → may_any lines who need ≡ true → need ≤ any_level lines who }
{}
