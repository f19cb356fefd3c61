//! Who asks, with the rights and the view.

ghost use Rattle.std.specs.Prelude.{◌≡◌, List, [], IfOk};
ghost use Rattle.depot_rows.specs.db_records.declared.table.TableId.TheVariants as table_ids;
ghost use Rattle.depot_rows.specs.depot_model.Asking.{view as view_in, who_of as who_in};
ghost use Rattle.depot_rows.specs.depot_model.Deeds.{Deed};
ghost use Rattle.depot_rows.specs.depot_model.Rules.{IsSound};
ghost use Rattle.depot_rows.specs.Standing.{HasRows};
ghost use Rattle.depot_rows.specs.protect_table.Rights.{may as may_at};
ghost use Rattle.depot_rows.specs.table_changes.Changed.{rows_of};
ghost use Rattle.depot_rows.specs.view_map.Mapping.{path_in};
ghost use Rattle.named_files.specs.Asked.{IsAsker, is_named, is_placed};

use depot_rows::model::Caller;
use depot_rows::paths::{ClientPath, DepotPath, Name, Pattern};
use depot_rows::protections::{Level, Protects, Who};
use depot_rows::tables::Tables;
use depot_rows::views::{Mapped, View};
use row_reads::{in_client_syntax, protects_of, view_of};
use std::alloc::{AllocError, Global};

/// Who asks: the client, the rights and the view.
pub struct Asker {
    /// The client.
    pub client: Name,
    /// The protections, shared with the tables.
    pub protects: Protects,
    /// The caller with the groups.
    pub who: Who,
    /// The view of the client, without lines where it isn't saved.
    pub view: View,
}

impl Drop for Asker {
    fn drop(self) {
        let Asker {
            client: _,
            protects: _,
            who: _,
            view: _,
        } = self;
    }
}

/// A copy of a name.
fn own_name(name: &Name) -> Result<Name, AllocError>
    ensures { IfOk result (λ own. own ≡ name.now) }
{
    name.clone()
}

/// The view without lines.
fn no_view(alloc: Global, client: &Name) -> Result<View, AllocError>
    ensures { IfOk result (λ view. view ≡ []) }
{
    match View::from_lines(alloc, client, &[]) {
        Ok(view) => Ok(view),
        Err(_) => Err(AllocError),
    }
}

/// The view of a client, without lines where it isn't saved.
fn view_or_none(alloc: Global, tables: &Tables, client: &Name) -> Result<View, AllocError>
    ensures { IfOk result (λ found. (d : List Deed) → IsSound d → HasRows (rows_of tables.now) d table_ids.Domain →
        found ≡ view_in d client.now) }
{
    match view_of(alloc, tables, client)? {
        Some(view) => Ok(view),
        None => no_view(alloc, client),
    }
}

impl Asker {
    /// The asker of a request, from the tables of protections and forms alone; who asks is read before (`who_of` of
    /// `row_reads`). The one error is want of memory.
    pub fn with(
        alloc: Global,
        tables: &Tables,
        caller: &Caller,
        who: Who,
    ) -> Result<Asker, AllocError>
        ensures { IfOk result (λ asker. (d : List Deed) → IsSound d → who ≡ who_in d caller.now →
            HasRows (rows_of tables.now) d table_ids.Protect →
            HasRows (rows_of tables.now) d table_ids.Domain → IsAsker d caller.now asker) }
    {
        let client = own_name(&caller.client)?;
        let protects = protects_of(tables).share()?;
        let view = view_or_none(alloc, tables, &caller.client)?;
        Ok(Asker {
            client,
            protects,
            who,
            view,
        })
    }

    /// Whether the asker may do at a path what the need asks.
    pub fn may(&self, path: &DepotPath, need: Level) -> bool
        ensures { result ≡ may_at self.now.protects self.now.who path.now need.0 }
    {
        self.protects.may(&self.who, path, need)
    }

    /// Where the view puts a file.
    pub fn place(&self, alloc: Global, path: &DepotPath) -> Result<Option<ClientPath>, AllocError>
        ensures { IfOk result (λ place. place ≡ path_in self.now.view path.now) }
    {
        match self.view.to_client(alloc, path)? {
            Mapped::At { path, .. } => Ok(Some(path)),
            Mapped::Nothing => Ok(None),
        }
    }

    /// Whether the pattern fits a file, or in client syntax the place where the view puts it.
    fn is_placed(
        &self,
        alloc: Global,
        pattern: &Pattern,
        path: &DepotPath,
    ) -> Result<bool, AllocError>
        ensures { IfOk result (λ placed. placed ≡ is_placed self.now pattern.now path.now) }
    {
        if !in_client_syntax(&self.client, pattern) {
            return Ok(pattern.matches(path));
        }
        match self.place(alloc, path)? {
            Some(place) => Ok(pattern.matches(&place)),
            None => Ok(false),
        }
    }

    /// Whether an argument of this pattern names a file that the asker may list.
    pub fn names(
        &self,
        alloc: Global,
        pattern: &Pattern,
        path: &DepotPath,
    ) -> Result<bool, AllocError>
        ensures { IfOk result (λ named. named ≡ is_named self.now pattern.now path.now) }
    {
        if !self.may(path, Level(1)) {
            return Ok(false);
        }
        let placed = self.is_placed(alloc, pattern, path)?;
        Ok(placed)
    }
}
