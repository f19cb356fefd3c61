//! Laws of shelved files.

ghost use Rattle.depot_runs.specs.Folds.{KeptAsLastShelved, NoShelfLands, ShelveKeepsAll, ShelvesAreApart};
ghost use Rattle.shelf_laws.specs.Unshelving.{UnshelvesAsLastShelved};

/// No change of a sound depot has landed and has a file that is kept.
pub fn no_change_lands_with_kept_files()
    ensures { NoShelfLands }
{}

/// The step of a `shelve`, over any depot, saves forms of shelved files and does nothing else.
pub fn shelving_saves_forms_alone()
    ensures { ShelveKeepsAll }
{}

/// Whatever the order of places: a file that is kept after them has the form of the last `shelve` place that saved it,
/// or, where no place did, that of the depot at the start. So an `unshelve` opens it as that place shelved it.
pub fn kept_files_are_those_last_shelved()
    ensures { KeptAsLastShelved }
{}

/// The replies of `files`, `filelog`, `print`, `describe` and `changes -s submitted` over any depot are those over the
/// depot without the forms of shelved files.
pub fn shelves_change_no_history()
    ensures { ShelvesAreApart }
{}

/// Whatever the order of places: an `unshelve` that follows them opens files with the base, action, type and source of
/// the last `shelve` place that saved them, or, where no place did, of their shelf in the depot at the start, prints
/// the block of that shelf, and does nothing else; each other row of its reply is a refusal. Unless one refusal is its
/// whole reply, each kept file that it names is opened so, once, and has its row, or has the row of the first refusal
/// of its opening.
pub fn unshelving_opens_what_was_last_shelved()
    ensures { UnshelvesAsLastShelved }
{}
