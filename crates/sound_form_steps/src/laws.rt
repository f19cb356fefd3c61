//! Laws of steps on forms, changes, shelves and fixes, and sound depots.

ghost use Rattle.std.specs.List.{list_all};
ghost use Rattle.std.specs.Prelude.{◌≡◌, ℕ, Bool, List, Option, IsTrue, false};
ghost use Rattle.depot_rows.specs.depot_path.Name.{is_name};
ghost use Rattle.depot_rows.specs.depot_model.declared.command.FileArgument.{FileArgument};
ghost use Rattle.depot_rows.specs.depot_model.declared.request.Caller.{Caller};
ghost use Rattle.depot_rows.specs.depot_model.declared.request.Request.{Request as Asked};
ghost use Rattle.depot_rows.specs.depot_model.Asking.{is_client};
ghost use Rattle.depot_rows.specs.depot_model.Deeds.{Deed};
ghost use Rattle.depot_rows.specs.depot_model.Fixes.{is_fixing};
ghost use Rattle.depot_rows.specs.depot_model.Rules.{IsSound};
ghost use Rattle.depot_rows.specs.depot_model.Shelves.{is_shelved};
ghost use Rattle.depot_rows.specs.depot_model.Step.{after};
ghost use Rattle.depot_rows.specs.depot_model.Steps.Changing.{change_save, change_delete};
ghost use Rattle.depot_rows.specs.depot_model.Steps.Checkpoint.{checkpoint};
ghost use Rattle.depot_rows.specs.depot_model.Steps.Clients.{client_save};
ghost use Rattle.depot_rows.specs.depot_model.Steps.Editing.{delete};
ghost use Rattle.depot_rows.specs.depot_model.Steps.Groups.{group_save};
ghost use Rattle.depot_rows.specs.depot_model.Steps.Jobs.{fix as fix_step, fix_delete, job_save};
ghost use Rattle.depot_rows.specs.depot_model.Steps.Labels.{label_save};
ghost use Rattle.depot_rows.specs.depot_model.Steps.Protections.{kept_line, protect_save};
ghost use Rattle.depot_rows.specs.depot_model.Steps.Shelving.{shelve as shelve_step, shelve_delete, unshelve};
ghost use Rattle.depot_rows.specs.protect_table.Words.{words_of};
ghost use Rattle.sound_form_steps.specs.Contents.{fits_content};

/// Saving a group, a client or a label leaves a sound depot sound, whatever the form.
pub fn forms_that_are_saved_keep_depots_sound()
    ensures group { (d : List Deed) (input : List ℕ) → IsSound d → IsSound (after d (group_save input).deeds) }
    ensures client { (d : List Deed) (input : List ℕ) → IsSound d → IsSound (after d (client_save input).deeds) }
    ensures label { (d : List Deed) (input : List ℕ) → IsSound d → IsSound (after d (label_save d input).deeds) }
    ensures protections { (d : List Deed) (input : List ℕ) → IsSound d → IsSound (after d (protect_save input).deeds) }
    ensures job { (d : List Deed) (input : List ℕ) → IsSound d → IsSound (after d (job_save d input).deeds) }
{}

/// Saving and deleting pending changes leaves a sound depot sound, where the caller has names, and a change with
/// shelved files or fixes isn't deleted. So does a checkpoint.
pub fn steps_on_changes_keep_depots_sound()
    ensures save { (d : List Deed) (request : Asked) (input : List ℕ) → IsSound d →
        IsTrue (is_name request.caller.user) →
        IsTrue (is_name request.caller.client) → IsSound (after d (change_save d request input).deeds) }
    ensures delete { (d : List Deed) (caller : Caller) (n : ℕ) → IsSound d → is_shelved d n ≡ false →
        is_fixing d n ≡ false →
        IsSound (after d (change_delete d caller n).deeds) }
    ensures checkpoint { (d : List Deed) → IsSound d → IsSound (after d (checkpoint d).deeds) }
{}

/// Putting fixes on a change and taking them off, shelving files, taking shelved files away and opening them leaves a
/// sound depot sound.
pub fn steps_on_shelves_and_fixes_keep_depots_sound()
    ensures fix { (d : List Deed) (caller : Caller) (n : ℕ) (names : List (List ℕ)) → IsSound d →
        IsTrue (is_name caller.user) →
        IsSound (after d (fix_step d caller n names).deeds) }
    ensures unfix { (d : List Deed) (n : ℕ) (names : List (List ℕ)) → IsSound d →
        IsSound (after d (fix_delete d n names).deeds) }
    ensures shelve { (d : List Deed) (request : Asked) (n : ℕ) (replaces : Bool) (files : List FileArgument) →
        IsSound d →
        IsTrue (list_all fits_content request.contents) → IsTrue (is_name request.caller.user) →
        IsTrue (is_name request.caller.client) →
        IsSound (after d (shelve_step d request n replaces files).deeds) }
    ensures take_away { (d : List Deed) (caller : Caller) (n : ℕ) (files : List FileArgument) → IsSound d →
        IsSound (after d (shelve_delete d caller n files).deeds) }
    ensures unshelve { (d : List Deed) (caller : Caller) (n : ℕ) (change : Option ℕ) (files : List FileArgument) →
        IsSound d →
        IsTrue (is_client d caller.client) → IsSound (after d (unshelve d caller n change files).deeds) }
{}

/// The words of a line of the protections, with one space between, make a line of the same words.
pub fn kept_lines_have_the_same_words()
    ensures { (line : List ℕ) → words_of (kept_line line) ≡ words_of line }
{}
