//! The block that gives an opened file its content.

ghost use Rattle.std.specs.Prelude.{◌≡◌, List, IfOk, is_some};
ghost use Rattle.std.specs.Option.{option_copied};
ghost use Rattle.depot_rows.specs.db_records.declared.table.TableId.TheVariants as table_ids;
ghost use Rattle.depot_rows.specs.table_changes.Changed.{rows_of};
ghost use Rattle.depot_rows.specs.depot_model.declared.request.Request.{Request as AnyRequest};
ghost use Rattle.depot_rows.specs.depot_model.Deeds.{Deed};
ghost use Rattle.depot_rows.specs.depot_model.Rules.{IsSound};
ghost use Rattle.depot_rows.specs.depot_model.Steps.Shelving as model;
ghost use Rattle.depot_rows.specs.depot_model.Steps.Submitting.{source_content as source_content_in};
ghost use Rattle.depot_rows.specs.Deed.{opening_of};
ghost use Rattle.depot_rows.specs.Standing.{HasRows};
ghost use Rattle.named_files.specs.Asked.{IsAsker};

use crate::content::{block_of, is_live_action, source_content};
use depot_rows::Opening;
use depot_rows::model::Contents;
use depot_rows::paths::Text;
use depot_rows::tables::Tables;
use named_files::Asker;
use std::alloc::{AllocError, Global};

/// Whether the source of an opened file has a content.
fn has_source_content(alloc: Global, tables: &Tables, opening: &Opening) -> Result<bool, AllocError>
    ensures { IfOk result (λ has. (d : List Deed) → IsSound d → HasRows (rows_of tables.now) d table_ids.Rev →
        has ≡ is_some (source_content_in d (opening_of opening.now))) }
{
    let found = source_content(alloc, tables, opening)?;
    let has = !found.is_absent();
    drop(found);
    Ok(has)
}

/// The block of the session that gives an opened file its content where its source doesn't, None exactly where no block
/// does or the file is opened for a deletion (Command-Line Reference, "p4 shelve"), from the table of revisions alone.
/// The one error is want of memory.
pub fn block_given<'a>(
    alloc: Global,
    tables: &Tables,
    asker: &Asker,
    contents: &'a Contents,
    opening: &Opening,
) -> Result<Option<&'a Text>, AllocError>
    ensures { IfOk result (λ block. (d : List Deed) (request : AnyRequest) → IsSound d →
        HasRows (rows_of tables.now) d table_ids.Rev → IsAsker d request.caller asker.now →
        contents.now ≡ request.contents → opening.now.client ≡ request.caller.client →
        option_copied block ≡ model.block_given d request (opening_of opening.now)) }
{
    if !is_live_action(opening.action) {
        return Ok(None);
    }
    let has = has_source_content(alloc, tables, opening)?;
    if has {
        return Ok(None);
    }
    let block = block_of(alloc, asker, contents, &opening.path)?;
    Ok(block)
}
