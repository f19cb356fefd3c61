//! Laws of steps on files and sound depots.

ghost use Rattle.std.specs.List.{list_all};
ghost use Rattle.std.specs.Prelude.{ℕ, Bool, List, Option, IsTrue};
ghost use Rattle.depot_rows.specs.depot_path.Name.{is_name};
ghost use Rattle.depot_rows.specs.depot_model.declared.command.FileArgument.{FileArgument};
ghost use Rattle.depot_rows.specs.depot_model.declared.command.Labelling.{Labelling};
ghost use Rattle.depot_rows.specs.depot_model.declared.command.PatternArgument.{PatternArgument};
ghost use Rattle.depot_rows.specs.depot_model.declared.command.Taking.{Taking};
ghost use Rattle.depot_rows.specs.depot_model.declared.request.Caller.{Caller};
ghost use Rattle.depot_rows.specs.depot_model.Asking.{is_client};
ghost use Rattle.depot_rows.specs.depot_model.Deeds.{Deed};
ghost use Rattle.depot_rows.specs.depot_model.Rules.{IsSound};
ghost use Rattle.depot_rows.specs.depot_model.Step.{after};
ghost use Rattle.depot_rows.specs.depot_model.Steps.Adding.{add};
ghost use Rattle.depot_rows.specs.depot_model.Steps.Editing.{edit, delete};
ghost use Rattle.depot_rows.specs.depot_model.Steps.Integrating.{integrate};
ghost use Rattle.depot_rows.specs.depot_model.Steps.Moving.{move as move_step};
ghost use Rattle.depot_rows.specs.depot_model.Steps.Resolving.{resolve};
ghost use Rattle.depot_rows.specs.depot_model.Steps.Reverting.{lock, unlock, revert, reopen};
ghost use Rattle.depot_rows.specs.depot_model.Steps.Syncing.{sync};
ghost use Rattle.depot_rows.specs.depot_model.Steps.Tagging.{tag, labelsync};
ghost use Rattle.depot_rows.specs.depot_model.WellFormed.{is_type_or_none, spells_path};

/// Steps on opened files, and on labels, leave a sound depot sound.
pub fn steps_on_files_keep_depots_sound()
    ensures lock { (d : List Deed) (caller : Caller) (change : Option ℕ) (files : List FileArgument) → IsSound d →
        IsSound (after d (lock d caller change files).deeds) }
    ensures unlock { (d : List Deed) (caller : Caller) (change : Option ℕ) (files : List FileArgument) → IsSound d →
        IsSound (after d (unlock d caller change files).deeds) }
    ensures revert { (d : List Deed) (caller : Caller) (change : Option ℕ) (files : List FileArgument) → IsSound d →
        IsSound (after d (revert d caller change files).deeds) }
    ensures reopen { (d : List Deed) (caller : Caller) (change : Option ℕ) (type : Option (List ℕ))
        (files : List FileArgument) →
        IsSound d →
        IsTrue (is_type_or_none type) → IsSound (after d (reopen d caller change type files).deeds) }
    ensures tag { (d : List Deed) (caller : Caller) (label : List ℕ) (removes : Bool) (files : List FileArgument) →
        IsSound d →
        IsTrue (is_name label) → IsSound (after d (tag d caller label removes files).deeds) }
    ensures labelsync { (d : List Deed) (caller : Caller) (label : List ℕ) (labelling : Labelling)
        (files : List FileArgument) →
        IsSound d →
        IsSound (after d (labelsync d caller label labelling files).deeds) }
{}

/// Steps that open files, and a sync, leave a sound depot sound where the caller's client is saved.
pub fn steps_that_open_files_keep_depots_sound()
    ensures add { (d : List Deed) (caller : Caller) (change : Option ℕ) (type : Option (List ℕ))
        (paths : List FileArgument) →
        IsSound d →
        IsTrue (is_client d caller.client) → IsTrue (is_type_or_none type) → IsTrue (list_all spells_path paths) →
        IsSound (after d (add d caller change type paths).deeds) }
    ensures edit { (d : List Deed) (caller : Caller) (change : Option ℕ) (type : Option (List ℕ))
        (files : List FileArgument) →
        IsSound d →
        IsTrue (is_client d caller.client) → IsTrue (is_type_or_none type) →
        IsSound (after d (edit d caller change type files).deeds) }
    ensures delete { (d : List Deed) (caller : Caller) (change : Option ℕ) (files : List FileArgument) → IsSound d →
        IsTrue (is_client d caller.client) → IsSound (after d (delete d caller change files).deeds) }
    ensures sync { (d : List Deed) (caller : Caller) (again shows : Bool) (files : List FileArgument) → IsSound d →
        IsTrue (is_client d caller.client) → IsSound (after d (sync d caller again shows files).deeds) }
{}

/// Moving, integrating and resolving files leaves a sound depot sound.
pub fn steps_between_files_keep_depots_sound()
    ensures moved { (d : List Deed) (caller : Caller) (change : Option ℕ) (from : FileArgument) (to : PatternArgument) →
        IsSound d →
        IsSound (after d (move_step d caller change from to).deeds) }
    ensures integrate { (d : List Deed) (caller : Caller) (change : Option ℕ) (from : FileArgument)
        (to : PatternArgument) →
        IsSound d →
        IsTrue (is_client d caller.client) → IsSound (after d (integrate d caller change from to).deeds) }
    ensures resolve { (d : List Deed) (caller : Caller) (taking : Taking) (files : List FileArgument) → IsSound d →
        IsSound (after d (resolve d caller taking files).deeds) }
{}
