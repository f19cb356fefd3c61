//! What a client has opened within a command.

ghost use Rattle.std.specs.Prelude.{◌≡◌, ℕ, List, true, Some, None, IfOk, OnOk, is_some, option_map};
ghost use Rattle.std.specs.BTreeMap.{Updates};
ghost use Rattle.std.specs.List.{list_all};
ghost use Rattle.depot_rows.specs.db_records.declared.table.TableId.TheVariants as table_ids;
ghost use Rattle.depot_rows.specs.depot_path.Order.{path_cmp};
ghost use Rattle.depot_rows.specs.table_changes.Changed.{rows_of};
ghost use Rattle.depot_rows.specs.depot_model.Deeds.{Deed as ModelDeed};
ghost use Rattle.depot_rows.specs.depot_model.Opened.{opened};
ghost use Rattle.depot_rows.specs.depot_model.Rules.{IsSound};
ghost use Rattle.depot_rows.specs.depot_model.Step.{after as after_deeds};
ghost use Rattle.depot_rows.specs.Deed.{opening_of as opening_of_deed};
ghost use Rattle.depot_rows.specs.Effects.{Follow};
ghost use Rattle.depot_rows.specs.Standing.{HasRows};
ghost use Rattle.opening_reads.specs.OwnOpenings.{BecomesBy, IsOwn, is_of};

use crate::reading::opening_in;
use depot_rows::paths::{DepotPath, Name, Text};
use depot_rows::tables::Tables;
use depot_rows::{Deed, Opening, Source};
use file_openings::opening_of;
use std::alloc::{AllocError, Global};
use std::collections::BTreeMap;

/// What a client has opened after the deeds that a command has made for it so far. The tables stay those of the depot
/// before the command; what the deeds changed of the client's openings stands here. What it costs follows the files
/// that were opened and shut.
pub struct OwnOpenings {
    /// Each file that was opened or shut, with its opening, or none where it was shut last.
    pub(crate) changed: BTreeMap<DepotPath, Option<Opening>>,
}

impl Drop for OwnOpenings {
    fn drop(self) {
        let OwnOpenings { changed: _ } = self;
    }
}

/// A copy of a name.
fn own_name(name: &Name) -> Result<Name, AllocError>
    ensures { IfOk result (λ own. own ≡ name.now) }
{
    name.clone()
}

/// A copy of a path.
fn own_path(path: &DepotPath) -> Result<DepotPath, AllocError>
    ensures { IfOk result (λ own. own ≡ path.now) }
{
    path.clone()
}

/// A copy of a text.
fn own_text(text: &Text) -> Result<Text, AllocError>
    ensures { IfOk result (λ own. own ≡ text.now) }
{
    text.clone()
}

/// A copy of the path at the other end of a move.
fn own_end(end: &Option<DepotPath>) -> Result<Option<DepotPath>, AllocError>
    ensures { IfOk result (λ own. own ≡ end.now) }
{
    match end {
        Some(path) => {
            let own = own_path(path)?;
            Ok(Some(own))
        }
        None => Ok(None),
    }
}

/// A copy of a revision whose content a submit takes.
fn own_source(source: &Option<Source>) -> Result<Option<Source>, AllocError>
    ensures { IfOk result (λ own. own ≡ source.now) }
{
    match source {
        Some(source) => {
            let path = own_path(&source.path)?;
            Ok(Some(Source {
                path,
                rev: source.rev,
            }))
        }
        None => Ok(None),
    }
}

/// A copy of an opening. The one error is want of memory.
pub fn own_opening(opening: &Opening) -> Result<Opening, AllocError>
    ensures { IfOk result (λ own. own ≡ opening.now) }
{
    let client = own_name(&opening.client)?;
    let path = own_path(&opening.path)?;
    let file_type = own_text(&opening.file_type)?;
    let source = own_source(&opening.source)?;
    let moved = own_end(&opening.moved)?;
    Ok(Opening {
        client,
        path,
        base: opening.base,
        action: opening.action,
        file_type,
        change: opening.change,
        source,
        moved,
    })
}

/// A copy of an opening, if there is one.
fn own_or_none(opening: &Option<Opening>) -> Result<Option<Opening>, AllocError>
    ensures { IfOk result (λ own. own ≡ opening.now) }
{
    match opening {
        Some(opening) => {
            let own = own_opening(opening)?;
            Ok(Some(own))
        }
        None => Ok(None),
    }
}

/// The opening of a file by a client, None exactly where it hasn't the file opened (Command-Line Reference, "p4
/// opened"), from the table of opened files alone. The one error is want of memory.
pub fn opening_by(
    alloc: Global,
    tables: &Tables,
    client: &Name,
    path: &DepotPath,
) -> Result<Option<Opening>, AllocError>
    ensures { IfOk result (λ opening. (d : List ModelDeed) → IsSound d →
        HasRows (rows_of tables.now) d table_ids.Working →
        option_map opening_of_deed opening ≡ opened d client.now path.now) }
{
    let row = opening_of(alloc, tables, client, path)?;
    match row {
        Some(row) => {
            let opening = opening_in(alloc, client, path, row)?;
            Ok(Some(opening))
        }
        None => Ok(None),
    }
}

/// Whether a client has a file opened, from the table of opened files alone. The one error is want of memory.
pub fn is_opened_by(
    alloc: Global,
    tables: &Tables,
    client: &Name,
    path: &DepotPath,
) -> Result<bool, AllocError>
    ensures { IfOk result (λ open_now. (d : List ModelDeed) → HasRows (rows_of tables.now) d table_ids.Working →
        open_now ≡ is_some (opened d client.now path.now)) }
{
    let row = opening_of(alloc, tables, client, path)?;
    Ok(row.is_some())
}

impl OwnOpenings {
    /// What the client has opened before the command, which takes no memory.
    pub fn new(alloc: Global) -> OwnOpenings
        ensures { (client : List ℕ) (d : List ModelDeed) → IsOwn result client d d }
    {
        OwnOpenings {
            changed: BTreeMap::new(alloc),
        }
    }

    /// The client's opening of a file, None exactly where it hasn't the file opened, from the table of opened files
    /// alone. The one error, here and below, is want of memory.
    pub fn opening(
        &self,
        alloc: Global,
        tables: &Tables,
        client: &Name,
        path: &DepotPath,
    ) -> Result<Option<Opening>, AllocError>
        ensures { IfOk result (λ opening. (d e : List ModelDeed) → IsSound d →
            HasRows (rows_of tables.now) d table_ids.Working → IsOwn self.now client.now d e →
            option_map opening_of_deed opening ≡ opened e client.now path.now) }
    {
        match self.changed.get(path) {
            Some(changed) => {
                let opening = own_or_none(changed)?;
                Ok(opening)
            }
            None => {
                let opening = opening_by(alloc, tables, client, path)?;
                Ok(opening)
            }
        }
    }

    /// Whether the client has a file opened, from the table of opened files alone.
    pub fn is_opened(
        &self,
        alloc: Global,
        tables: &Tables,
        client: &Name,
        path: &DepotPath,
    ) -> Result<bool, AllocError>
        ensures { IfOk result (λ open_now. (d e : List ModelDeed) → HasRows (rows_of tables.now) d table_ids.Working →
            IsOwn self.now client.now d e →
            open_now ≡ is_some (opened e client.now path.now)) }
    {
        match self.changed.get(path) {
            Some(changed) => Ok(changed.is_some()),
            None => {
                let opened = is_opened_by(alloc, tables, client, path)?;
                Ok(opened)
            }
        }
    }

    /// Puts what became of a file.
    fn put(&mut self, path: DepotPath, opening: Option<Opening>) -> Result<(), AllocError>
        ensures { OnOk result (Updates path_cmp self.old.changed self.new.changed path (Some opening)) }
    {
        self.changed.insert(path, opening)?;
        Ok(())
    }

    /// Notes that the client opens a file.
    fn note_opened(&mut self, opening: &Opening) -> Result<(), AllocError>
        ensures { OnOk result (Updates path_cmp self.old.changed self.new.changed opening.now.path (Some (Some opening.now))) }
    {
        let path = own_path(&opening.path)?;
        let own = own_opening(opening)?;
        self.put(path, Some(own))?;
        Ok(())
    }

    /// Notes that the client has a file opened no more.
    fn note_shut(&mut self, path: &DepotPath) -> Result<(), AllocError>
        ensures { OnOk result (Updates path_cmp self.old.changed self.new.changed path.now (Some None)) }
    {
        let path = own_path(path)?;
        self.put(path, None)?;
        Ok(())
    }

    /// Notes a deed.
    fn note_deed(&mut self, deed: &Deed) -> Result<(), AllocError>
        ensures { OnOk result (BecomesBy deed.now self.old.changed self.new.changed) }
    {
        match deed {
            Deed::Open(opening) => self.note_opened(opening),
            Deed::Shut(held) => self.note_shut(&held.path),
            _ => Ok(()),
        }
    }

    /// Notes deeds that a command makes for the client, the first first.
    pub fn note(&mut self, deeds: &[Deed]) -> Result<(), AllocError>
        ensures { OnOk result ((client : List ℕ) (d e done : List ModelDeed) → Follow e deeds.now done →
            list_all (is_of client) done ≡ true → IsOwn self.old client d e →
            IsOwn self.new client d (after_deeds e done)) }
    {
        let mut rest = deeds;
        while let [deed, later @ ..] = rest {
            self.note_deed(deed)?;
            rest = later;
        }
        Ok(())
    }
}
