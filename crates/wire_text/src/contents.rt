//! What a session says that its files hold.

ghost use Rattle.std.specs.Prelude.{IfOk};
ghost use Rattle.wire_text.specs.Commands.{KeepCase};

use crate::entry::{Entry, Item};
use depot_model::Content;
use depot_model::paths::{ClientPath, Text};
use indexmap::IndexMap;
use std::alloc::AllocError;

/// Passes an entry, if there is one: brings the contents up to date, or answers the command that it is.
pub(crate) fn pass_entry(
    contents: &mut IndexMap<ClientPath, Text>,
    entry: Option<Entry>,
) -> Result<Option<Item>, AllocError>
    ensures { IfOk result (λ item. KeepCase entry contents.old.entries contents.new.entries item) }
{
    match entry {
        None => Ok(None),
        Some(Entry::Put(content)) => {
            let Content { path, bytes } = content;
            contents.insert(path, bytes)?;
            Ok(None)
        }
        Some(Entry::Clear(path)) => {
            contents.shift_remove(&path);
            Ok(None)
        }
        Some(Entry::Command(item)) => Ok(Some(item)),
    }
}
