//! What `tag` and `labelsync` do with a file.

ghost use Rattle.std.specs.Prelude.{◌≡◌, ◌==◌, ◌&&◌, List, IfOk, if◌then◌else◌};
ghost use Rattle.depot_rows.specs.db_records.declared.record.Record.{Record as Stored};
ghost use Rattle.depot_rows.specs.db_records.declared.table.TableId.TheVariants as table_ids;
ghost use Rattle.depot_rows.specs.table_changes.Changed.{AllRows, rows_of};
ghost use Rattle.depot_rows.specs.depot_model.Deeds.{Deed};
ghost use Rattle.depot_rows.specs.depot_model.Latest.{labelled};
ghost use Rattle.depot_rows.specs.depot_model.Rules.{IsSound};
ghost use Rattle.depot_rows.specs.depot_model.Steps.Tagging as model;
ghost use Rattle.depot_rows.specs.Standing.{HasRows};
ghost use Rattle.named_files.specs.declared.listing.Listing.TheVariants.{Submitted};
ghost use Rattle.named_files.specs.Sets.{ShownReads};
ghost use Rattle.newest_revisions.specs.Seen.{AreHeads};
ghost use Rattle.reply_rows.specs.Made.{IsMade};
ghost use Rattle.revision_reads.specs.Choice.{HaveRows, wanted_tables};
ghost use Rattle.label_ops.specs.Tagged.{asked, is_head, labelling_of as labelling_by, rev_by, tag_step, told_rev as rev_told, word_of as word_between};

use depot_rows::model::{Caller, FileArgument, Labelling, Row};
use depot_rows::paths::{DepotPath, Name, RevSpec, Sequence, Wanted};
use depot_rows::protections::Level;
use depot_rows::tables::Tables;
use file_steps::{WalkAct, named_among};
use named_files::{Asker, ShownFiles};
use newest_revisions::SeenRows;
use reply_rows::{RowBuilder, Step, denied_row};
use row_reads::label_of;
use std::alloc::{AllocError, Global};

/// What is done with a file that a label takes or loses.
#[derive(Drop)]
pub(crate) struct Taking<'a> {
    pub(crate) caller: &'a Caller,
    pub(crate) asker: &'a Asker,
    pub(crate) label: &'a Name,
    /// What is done with a file of which no live revision is chosen.
    pub(crate) labelling: Labelling,
    /// Whether an argument without a revision asks for that of the have list.
    pub(crate) have: bool,
}

/// What is done with the files that a label takes or loses, with the newest revisions that the walk saw which found
/// them.
#[derive(Drop)]
pub(crate) struct TakingFiles<'a> {
    pub(crate) taking: Taking<'a>,
    pub(crate) heads: SeenRows<'a>,
}

/// What `tag` does with a file of which no live revision is chosen: it leaves it, and with `-d` it removes all files
/// that are named.
pub(crate) fn labelling_of(removes: bool) -> Labelling
    ensures { result ≡ labelling_by removes }
{
    if removes {
        Labelling::Removing
    } else {
        Labelling::Adding
    }
}

/// What becomes of a revision, 0 for none.
fn word_of(old: u32, new: u32) -> &'static [u8]
    ensures { result.now ≡ word_between old new }
{
    if old == 0 {
        b"added"
    } else if new == 0 {
        b"deleted"
    } else {
        b"updated"
    }
}

/// The revision that is told: the new one, or the old one where there is none.
fn told_rev(old: u32, new: u32) -> u32
    ensures { result ≡ rev_told old new }
{
    if new == 0 { old } else { new }
}

/// The row of a file whose revision in a label becomes another one.
fn tag_row(alloc: Global, path: &DepotPath, rev: u32, word: &[u8]) -> Result<Row, AllocError>
    ensures { IfOk result (λ row. row ≡ model.tag_row path.now rev word.now) }
{
    let row = RowBuilder::new(alloc).path(b"depotFile", path)?;
    let row = row.number(b"rev", u64::from(rev))?;
    let row = row.text(b"action", word)?;
    Ok(row.row())
}

/// A copy of a name.
fn own_name(name: &Name) -> Result<Name, AllocError>
    ensures { IfOk result (λ own. own ≡ name.now) }
{
    name.clone()
}

/// A copy of a path.
fn own_path(path: &DepotPath) -> Result<DepotPath, AllocError>
    ensures { IfOk result (λ own. own ≡ path.now) }
{
    path.clone()
}

/// The step of a file whose revision in a label becomes another one.
fn change_tag(
    alloc: Global,
    label: &Name,
    path: &DepotPath,
    old: u32,
    new: u32,
) -> Result<Step, AllocError>
    ensures { IfOk result (λ step. (all : AllRows) (d e : List Deed) →
        IsMade all d e (tag_step label.now path.now old new) step) }
{
    // the bytes of a path are one
    let _bytes = path.as_bytes();
    let name = own_name(label)?;
    let file = own_path(path)?;
    let word = word_of(old, new);
    let rev = told_rev(old, new);
    let row = tag_row(alloc, path, rev, word)?;
    let step = Step::tags(alloc, name, file, new, row)?;
    Ok(step)
}

/// What is done with a file whose revision in a label becomes another one, or stays, 0 for none.
fn tag_to(
    alloc: Global,
    label: &Name,
    path: &DepotPath,
    old: u32,
    new: u32,
) -> Result<Step, AllocError>
    ensures { IfOk result (λ step. (all : AllRows) (d e : List Deed) →
        IsMade all d e (model.tag_to label.now path.now old new) step) }
{
    let stays = old == new;
    if stays {
        let step = Step::new(alloc);
        Ok(step)
    } else {
        let step = change_tag(alloc, label, path, old, new)?;
        Ok(step)
    }
}

/// Whether an argument asks for the revision of the have list, since that stands for none.
fn asks_have(have: bool, wanted: &Wanted) -> bool
    ensures { result ≡ (have && is_head wanted.now) }
{
    have && matches!(wanted, Wanted::Head)
}

/// The revision that a file specification chooses of a file, where it is live there, 0 for none.
fn live_choice<'t>(
    alloc: Global,
    tables: &'t Tables,
    heads: &mut SeenRows<'t>,
    caller: &Caller,
    path: &DepotPath,
    wanted: &Wanted,
) -> Result<u32, AllocError>
    ensures heads { IfOk result (λ _. (rows : List Stored) → AreHeads rows heads.old → AreHeads rows heads.new) }
    ensures rev { IfOk result (λ rev. (d : List Deed) → AreHeads (rows_of tables.now table_ids.Rev) heads.old →
        IsSound d → HasRows (rows_of tables.now) d table_ids.Rev →
        HaveRows (rows_of tables.now) d (wanted_tables wanted.now) →
        rev ≡ model.live_choice d caller.now wanted.now path.now) }
{
    let choice = heads.choice(alloc, tables, caller, path, wanted)?;
    match choice {
        Some(found) => {
            let live = found.is_live();
            if live { Ok(found.rev) } else { Ok(0) }
        }
        None => Ok(0),
    }
}

/// The revision of a file that an argument asks for, where it is live there, 0 for none.
fn asked_choice<'t>(
    alloc: Global,
    tables: &'t Tables,
    heads: &mut SeenRows<'t>,
    taking: &Taking<'_>,
    path: &DepotPath,
    wanted: &Wanted,
) -> Result<u32, AllocError>
    ensures heads { IfOk result (λ _. (rows : List Stored) → AreHeads rows heads.old → AreHeads rows heads.new) }
    ensures rev { IfOk result (λ rev. (d : List Deed) →
        ShownReads taking.now.caller.now taking.now.asker.now Submitted (rows_of tables.now) d →
        AreHeads (rows_of tables.now table_ids.Rev) heads.old →
        rev ≡ model.live_choice d taking.now.caller.now (asked taking.now.have wanted.now) path.now) }
{
    let had = asks_have(taking.have, wanted);
    if had {
        let have = Wanted::One(RevSpec::Have);
        let found = live_choice(alloc, tables, heads, taking.caller, path, &have);
        drop(have);
        let own = found?;
        Ok(own)
    } else {
        let rev = live_choice(alloc, tables, heads, taking.caller, path, wanted)?;
        Ok(rev)
    }
}

/// A revision, or for none another one.
fn or_old(rev: u32, old: u32) -> u32
    ensures { result ≡ (if rev == 0 then old else rev) }
{
    if rev == 0 { old } else { rev }
}

/// The revision of a file that a label is to have, 0 for none, where this is the one that it has.
fn new_rev<'t>(
    alloc: Global,
    tables: &'t Tables,
    heads: &mut SeenRows<'t>,
    taking: &Taking<'_>,
    path: &DepotPath,
    wanted: &Wanted,
    old: u32,
) -> Result<u32, AllocError>
    ensures heads { IfOk result (λ _. (rows : List Stored) → AreHeads rows heads.old → AreHeads rows heads.new) }
    ensures rev { IfOk result (λ rev. (d : List Deed) →
        ShownReads taking.now.caller.now taking.now.asker.now Submitted (rows_of tables.now) d →
        AreHeads (rows_of tables.now table_ids.Rev) heads.old → old ≡ labelled d taking.now.label.now path.now →
        rev ≡ rev_by taking.now.labelling d taking.now.caller.now taking.now.label.now (asked taking.now.have wanted.now) path.now) }
{
    match taking.labelling {
        Labelling::Removing => Ok(0),
        Labelling::Exact => {
            let rev = asked_choice(alloc, tables, heads, taking, path, wanted)?;
            Ok(rev)
        }
        Labelling::Adding => {
            let rev = asked_choice(alloc, tables, heads, taking, path, wanted)?;
            Ok(or_old(rev, old))
        }
    }
}

/// What is done with a file, where the caller may.
fn take<'t>(
    alloc: Global,
    tables: &'t Tables,
    heads: &mut SeenRows<'t>,
    taking: &Taking<'_>,
    path: &DepotPath,
    wanted: &Wanted,
) -> Result<Step, AllocError>
    ensures heads { IfOk result (λ _. (rows : List Stored) → AreHeads rows heads.old → AreHeads rows heads.new) }
    ensures step { IfOk result (λ step. (d e : List Deed) →
        ShownReads taking.now.caller.now taking.now.asker.now Submitted (rows_of tables.now) d →
        AreHeads (rows_of tables.now table_ids.Rev) heads.old →
        IsMade (rows_of tables.now) d e (model.tag_to taking.now.label.now path.now (labelled d taking.now.label.now path.now)
        (rev_by taking.now.labelling d taking.now.caller.now taking.now.label.now (asked taking.now.have wanted.now) path.now)) step) }
{
    let old = label_of(alloc, tables, taking.label, path)?;
    let new = new_rev(alloc, tables, heads, taking, path, wanted, old)?;
    let step = tag_to(alloc, taking.label, path, old, new)?;
    Ok(step)
}

impl<'a> WalkAct<'a, ShownFiles<'a>> for TakingFiles<'a> {
    ghost use Rattle.depot_rows.specs.db_records.declared.table.TableId.TheVariants as table_ids;
    ghost use Rattle.named_files.specs.declared.listing.Listing.TheVariants.{Submitted};
    ghost use Rattle.named_files.specs.Sets.{ShownReads};
    ghost use Rattle.newest_revisions.specs.Seen.{AreHeads};
    ghost use Rattle.label_ops.specs.Tagged.{taken};

    ghost stands = { λ it set argument rows d e. ShownReads it.taking.caller.now it.taking.asker.now Submitted rows d × AreHeads (rows table_ids.Rev) it.heads };

    ghost acts = { λ it d argument path. taken it.taking.labelling it.taking.have d it.taking.caller.now it.taking.label.now argument path };

    fn find(
        &mut self,
        alloc: Global,
        tables: &'a Tables,
        set: &ShownFiles<'a>,
        argument: &FileArgument,
    ) -> Result<Sequence<DepotPath>, AllocError> {
        let candidates = self.heads.find(alloc, tables, set, argument)?;
        let named = named_among(alloc, tables, set, argument, candidates)?;
        Ok(named)
    }

    fn act(
        &mut self,
        alloc: Global,
        tables: &'a Tables,
        argument: &FileArgument,
        path: &DepotPath,
    ) -> Result<Step, AllocError> {
        let may = self.taking.asker.may(path, Level(3));
        if may {
            let wanted = &argument.spec.wanted;
            let step = take(alloc, tables, &mut self.heads, &self.taking, path, wanted)?;
            Ok(step)
        } else {
            let row = denied_row(alloc, path, Level(3))?;
            let step = Step::tells(alloc, row)?;
            Ok(step)
        }
    }
}
