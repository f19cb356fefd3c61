//! What a command does with the submitted files of which its arguments choose a revision.

ghost use Rattle.std.specs.Prelude.{◌≡◌, ◌++◌, ◌∷◌, ℕ, List, [], filter, if◌then◌else◌, map, IfOk, OnOk};
ghost use Rattle.std.specs.List.{All};
ghost use Rattle.std.specs.Option.{option_copied};
ghost use Rattle.depot_rows.specs.db_records.declared.record.Record.{Record as Stored};
ghost use Rattle.depot_rows.specs.db_records.declared.table.TableId.TheVariants as table_ids;
ghost use Rattle.depot_rows.specs.table_changes.Changed.{AllRows, rows_of};
ghost use Rattle.depot_rows.specs.depot_model.declared.command.FileArgument.{FileArgument as Argument};
ghost use Rattle.depot_rows.specs.depot_model.declared.request.Caller.{Caller as Asking};
ghost use Rattle.depot_rows.specs.depot_model.Arguments.{no_file as told_without, over as over_in};
ghost use Rattle.depot_rows.specs.depot_model.Deeds.{Deed};
ghost use Rattle.depot_rows.specs.depot_model.Step.{Step as ModelStep};
ghost use Rattle.depot_rows.specs.depot_model.Steps.Listing.{listed};
ghost use Rattle.named_files.specs.Asked.{IsAsker};
ghost use Rattle.named_files.specs.Listed.{files_of};
ghost use Rattle.named_files.specs.Sets.{ShownReads, is_listed};
ghost use Rattle.newest_revisions.specs.Seen.{AreHeads, kept};
ghost use Rattle.reply_rows.specs.Made.{IsMade};
ghost use Rattle.history_query.specs.Choosing.{AreChosen, ChoiceReads, IsChoice, IsChosen};

use depot_rows::model::{Caller, FileArgument};
use depot_rows::paths::{DepotPath, Sequence, Wanted};
use depot_rows::records::RevRecord;
use depot_rows::tables::Tables;
use file_steps::{FileSet, WalkAct, walk_over};
use named_files::{Asker, ChosenFiles, Listing, ShownFiles};
use newest_revisions::{SeenRows, asks_for_none};
use reply_rows::Step;
use revision_reads::stored_choice;
use std::alloc::{AllocError, Global};

/// What a command tells of a file and the revision that an argument chooses of it. It reads the tables alone of which
/// `reads` speaks; where they have the rows of a depot, it tells what the model tells of that depot. The one error is
/// want of memory.
pub(crate) trait ChoiceAct {
    /// Whether rows are those of a depot, as far as the command reads them for a file of a caller.
    ghost reads: { Self → Asking → AllRows → List Deed → Type 0 };

    /// What is told of a file that an argument names.
    ghost acts: { Self → List Deed → Asking → Argument → List ℕ → ModelStep };

    /// What is told of a file, by the row of the revision that is chosen, if there is one.
    fn act(
        &self,
        alloc: Global,
        tables: &Tables,
        caller: &Caller,
        path: &DepotPath,
        row: Option<&RevRecord>,
    ) -> Result<Step, AllocError>
        ensures { IfOk result (λ step. (d e : List Deed) (argument : Argument) →
            reads self.now caller.now (rows_of tables.now) d →
            IsChoice (rows_of tables.now) d caller.now argument.spec.wanted path.now (option_copied row.entry) →
            IsMade (rows_of tables.now) d e (acts self.now d caller.now argument path.now) step) };
}

/// Files, and the rows of the revisions that are chosen of them.
#[derive(Drop)]
struct ChosenRows<'t> {
    paths: Sequence<DepotPath>,
    rows: Vec<&'t RevRecord>,
}

/// Adds a file and the row of the revision that an argument chooses of it, if the argument names the file and chooses
/// one.
fn add_chosen<'t>(
    alloc: Global,
    tables: &'t Tables,
    shown: &ShownFiles<'_>,
    heads: &mut SeenRows<'t>,
    found: &mut ChosenRows<'t>,
    argument: &FileArgument,
    path: DepotPath,
) -> Result<(), AllocError>
    ensures heads { OnOk result ((rows : List Stored) → AreHeads rows heads.old → AreHeads rows heads.new) }
    ensures paths { OnOk result ((d : List Deed) →
        ShownReads shown.now.caller.now shown.now.asker.now shown.now.listing.now (rows_of tables.now) d →
        AreHeads (rows_of tables.now table_ids.Rev) heads.old →
        found.new.paths ≡ found.old.paths ++ (if is_listed shown.now.caller.now d argument.now path then path ∷ [] else [])) }
    ensures rows { OnOk result ((d : List Deed) → ChoiceReads (rows_of tables.now) d →
        AreHeads (rows_of tables.now table_ids.Rev) heads.old →
        All (IsChosen (rows_of tables.now) d shown.now.caller.now argument.now.spec.wanted) (map (λ r. r.now) found.old.rows.items) →
        All (IsChosen (rows_of tables.now) d shown.now.caller.now argument.now.spec.wanted) (map (λ r. r.now) found.new.rows.items)) }
{
    let named = shown.is_named(alloc, tables, argument, &path)?;
    if !named {
        return Ok(());
    }
    let wanted = &argument.spec.wanted;
    let row = heads.chosen(alloc, tables, shown.caller, &path, wanted)?;
    match row {
        Some(row) => {
            found.rows.push(row)?;
            found.paths.push(path)?;
            Ok(())
        }
        None => Ok(()),
    }
}

/// Those of some files that an argument names and of which it chooses a revision, in their order, and the rows of
/// these.
fn chosen_among<'t>(
    alloc: Global,
    tables: &'t Tables,
    shown: &ShownFiles<'_>,
    heads: &mut SeenRows<'t>,
    argument: &FileArgument,
    candidates: Sequence<DepotPath>,
) -> Result<ChosenRows<'t>, AllocError>
    ensures paths { IfOk result (λ found. (d : List Deed) →
        ShownReads shown.now.caller.now shown.now.asker.now shown.now.listing.now (rows_of tables.now) d →
        AreHeads (rows_of tables.now table_ids.Rev) heads.old →
        found.paths ≡ filter (is_listed shown.now.caller.now d argument.now) candidates) }
    ensures rows { IfOk result (λ found. (d : List Deed) → ChoiceReads (rows_of tables.now) d →
        AreHeads (rows_of tables.now table_ids.Rev) heads.old →
        All (IsChosen (rows_of tables.now) d shown.now.caller.now argument.now.spec.wanted) (map (λ r. r.now) found.rows.items)) }
{
    let mut found = ChosenRows {
        paths: Sequence::new(alloc),
        rows: Vec::new(alloc),
    };
    for path in candidates.into_vec() {
        add_chosen(alloc, tables, shown, heads, &mut found, argument, path)?;
    }
    Ok(found)
}

/// Among the files of a list, in their order, at least those of which an argument chooses a revision; where it asks for
/// none, with the rows of newest revisions from the same walk.
fn candidates_of<'t>(
    alloc: Global,
    tables: &'t Tables,
    shown: &ShownFiles<'_>,
    heads: &mut SeenRows<'t>,
    argument: &FileArgument,
) -> Result<Sequence<DepotPath>, AllocError>
    ensures paths { IfOk result (λ paths. (d : List Deed) →
        ShownReads shown.now.caller.now shown.now.asker.now shown.now.listing.now (rows_of tables.now) d →
        filter (is_listed shown.now.caller.now d argument.now) paths ≡
        filter (is_listed shown.now.caller.now d argument.now) (files_of shown.now.listing.now d)) }
    ensures heads { IfOk result (λ _. AreHeads (rows_of tables.now table_ids.Rev) heads.old →
        AreHeads (rows_of tables.now table_ids.Rev) heads.new) }
{
    if asks_for_none(&argument.spec.wanted) {
        let newest = heads.find(alloc, tables, shown, argument)?;
        return Ok(newest);
    }
    let files = ChosenFiles {
        caller: shown.caller,
        asker: shown.asker,
        listing: shown.listing,
    };
    let found = files.candidates(alloc, tables, argument)?;
    Ok(found)
}

/// The files of a list of which an argument chooses a revision, in their order, and the rows of these.
fn chosen_by<'t>(
    alloc: Global,
    tables: &'t Tables,
    set: &ChosenFiles<'_>,
    argument: &FileArgument,
) -> Result<ChosenRows<'t>, AllocError>
    ensures paths { IfOk result (λ found. (d : List Deed) →
        ShownReads set.now.caller.now set.now.asker.now set.now.listing.now (rows_of tables.now) d →
        found.paths ≡ filter (is_listed set.now.caller.now d argument.now) (files_of set.now.listing.now d)) }
    ensures rows { IfOk result (λ found. (d : List Deed) → ChoiceReads (rows_of tables.now) d →
        All (IsChosen (rows_of tables.now) d set.now.caller.now argument.now.spec.wanted) (map (λ r. r.now) found.rows.items)) }
{
    let shown = ShownFiles {
        caller: set.caller,
        asker: set.asker,
        listing: set.listing,
    };
    let mut heads = SeenRows::none(alloc);
    let candidates = candidates_of(alloc, tables, &shown, &mut heads, argument)?;
    let found = chosen_among(alloc, tables, &shown, &mut heads, argument, candidates)?;
    Ok(found)
}

/// The row of the revision that is chosen of a file, if there is one: by what was seen behind the files before, or else
/// it is looked up.
fn choice<'t>(
    alloc: Global,
    tables: &'t Tables,
    caller: &Caller,
    seen: &mut SeenRows<'t>,
    path: &DepotPath,
    wanted: &Wanted,
) -> Result<Option<&'t RevRecord>, AllocError>
    ensures rows { IfOk result (λ _. kept seen.new ≡ kept seen.old) }
    ensures choice { IfOk result (λ row. (d : List Deed) → ChoiceReads (rows_of tables.now) d →
        AreChosen (rows_of tables.now) d caller.now wanted.now seen.old →
        IsChoice (rows_of tables.now) d caller.now wanted.now path.now (option_copied row)) }
{
    let text = path.print(alloc)?;
    let row = seen.go_to(&text);
    drop(text);
    match row {
        Some(row) => Ok(Some(row)),
        None => {
            let row = stored_choice(alloc, tables, caller, path, wanted)?;
            Ok(row)
        }
    }
}

/// What a command does with these files, with the rows of the revisions that were chosen as they were found.
#[derive(Drop)]
struct Choosing<'a, A> {
    act: &'a A,
    caller: &'a Caller,
    seen: SeenRows<'a>,
}

impl<'a, A: ChoiceAct> WalkAct<'a, ChosenFiles<'a>> for Choosing<'a, A> {
    ghost use Rattle.history_query.specs.Choosing.{AreChosen as AreOf, ChoiceReads as Reads};

    ghost stands = { λ it set argument rows d e. A.reads it.act.now it.caller.now rows d × Reads rows d × (set.caller.now ≡ it.caller.now) ×
        AreOf rows d it.caller.now argument.spec.wanted it.seen };

    ghost acts = { λ it d argument path. A.acts it.act.now d it.caller.now argument path };

    fn find(
        &mut self,
        alloc: Global,
        tables: &'a Tables,
        set: &ChosenFiles<'a>,
        argument: &FileArgument,
    ) -> Result<Sequence<DepotPath>, AllocError> {
        let found = chosen_by(alloc, tables, set, argument)?;
        let ChosenRows { paths, rows } = found;
        self.seen.see(rows);
        Ok(paths)
    }

    fn act(
        &mut self,
        alloc: Global,
        tables: &'a Tables,
        argument: &FileArgument,
        path: &DepotPath,
    ) -> Result<Step, AllocError> {
        let wanted = &argument.spec.wanted;
        let row = choice(alloc, tables, self.caller, &mut self.seen, path, wanted)?;
        let step = self.act.act(alloc, tables, self.caller, path, row)?;
        Ok(step)
    }
}

/// Does so by argument, and then by path, with each file once.
pub(crate) fn over_chosen<A: ChoiceAct>(
    alloc: Global,
    tables: &Tables,
    caller: &Caller,
    asker: &Asker,
    act: &A,
    arguments: &[FileArgument],
) -> Result<Step, AllocError>
    ensures { IfOk result (λ step. (d : List Deed) → IsAsker d caller.now asker.now →
        ChoiceReads (rows_of tables.now) d → A.reads act.now caller.now (rows_of tables.now) d →
        IsMade (rows_of tables.now) d d (over_in (listed d caller.now) told_without (A.acts act.now d caller.now) [] arguments.now) step) }
{
    let listing = Listing::Submitted;
    let files = ChosenFiles {
        caller,
        asker,
        listing: &listing,
    };
    let mut choosing = Choosing {
        act,
        caller,
        seen: SeenRows::none(alloc),
    };
    let done = walk_over(alloc, tables, &files, &mut choosing, arguments);
    drop(choosing);
    drop(listing);
    let step = done?;
    Ok(step)
}
