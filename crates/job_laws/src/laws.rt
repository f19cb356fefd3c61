//! Laws of jobs, and of the changes that fix them.

ghost use Rattle.depot_runs.specs.Folds.{FixesAreFolded, JobsAreFolded};
ghost use Rattle.job_laws.specs.Renumbering.{FixesGoWithTheirChange};
ghost use Rattle.job_laws.specs.Showing.{FoldedAreListed, JobsAreShown, ListedAreFolded};

/// Whatever the order of places, from every sound depot: a job after them has the form that the last `job -i` gave it,
/// or that of the start, closed where since then a submit landed a change with a fix of it on, or a `fix` put it on a
/// submitted change.
pub fn jobs_are_folded()
    ensures { JobsAreFolded }
{}

/// Whatever the order of places, from every depot: a fix after them has the form that the last `fix`, `fix -d` or
/// submit gave it, or that of the start.
pub fn fixes_are_folded()
    ensures { FixesAreFolded }
{}

/// A submit, over every sound depot, that lands change `n` under another number `m` makes each fix of `n` that is on
/// one of `m`: the fix in `m` has the form that the one in `n` had, with the number `m`, and the one in `n` is off. No
/// other fix changes at a submit.
pub fn fixes_go_with_their_change()
    ensures { FixesGoWithTheirChange }
{}

/// Whatever the order of places, from every sound depot: a `job -o` that follows, and that is refused by no refusal
/// which is common to all commands, prints the job as it is folded over them.
pub fn jobs_are_shown_as_folded()
    ensures { JobsAreShown }
{}

/// Whatever the order of places, from every sound depot: the fixes that are on after them, of which `fixes` lists those
/// that are asked for, are those that are on as they are folded over the places.
pub fn fixes_are_listed_as_folded()
    ensures listed { ListedAreFolded }
    ensures folded { FoldedAreListed }
{}
