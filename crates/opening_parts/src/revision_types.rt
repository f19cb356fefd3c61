//! The types with which files are opened.

ghost use Rattle.std.specs.Prelude.{◌≡◌, IfOk};
ghost use Rattle.std.specs.Option.{option_copied};
ghost use Rattle.opening_parts.specs.RevisionTypes.{type_in};

use depot_rows::paths::Text;
use depot_rows::records::RevRecord;
use std::alloc::{AllocError, Global};

/// The type of a revision by its row, `text` where there is none (Command-Line Reference, "p4 edit").
pub fn type_of(alloc: Global, row: Option<&RevRecord>) -> Result<Text, AllocError>
    ensures { IfOk result (λ text. text ≡ type_in (option_copied row.entry)) }
{
    match row {
        Some(row) => {
            let file_type = row.file_type.clone()?;
            Ok(file_type)
        }
        None => {
            let file_type = Text::from_bytes(alloc, b"text")?;
            Ok(file_type)
        }
    }
}
