//! Lines of the protections, as rows have their words.

ghost use Rattle.std.specs.Prelude.{◌≡◌, ◌++◌, ◌∷◌, IfOk, OnOk};
ghost use Rattle.db_records.specs.Record.{line_text as text_of_line};

use crate::rows::ProtectRecord;
use depot_path::Text;
use std::alloc::{AllocError, Global};

/// Adds a word behind a space.
fn append_word(text: &mut Text, word: &Text) -> Result<(), AllocError>
    ensures { OnOk result (text.new ≡ text.old ++ 0x20 ∷ word.now) }
{
    text.append(b" ")?;
    text.append(word.as_bytes())?;
    Ok(())
}

/// The line that a row's words make. The one error is want of memory.
pub fn line_text(alloc: Global, row: &ProtectRecord) -> Result<Text, AllocError>
    ensures { IfOk result (λ text. text ≡ text_of_line row.now) }
{
    let mut text = Text::from_bytes(alloc, row.mode.as_bytes())?;
    append_word(&mut text, &row.kind)?;
    append_word(&mut text, &row.name)?;
    append_word(&mut text, &row.host)?;
    append_word(&mut text, &row.path)?;
    Ok(text)
}
