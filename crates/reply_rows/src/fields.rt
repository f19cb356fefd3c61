//! Fields and rows of replies.

ghost use Rattle.std.specs.Prelude.{◌≡◌, IfOk, decimal};
ghost use Rattle.depot_rows.specs.depot_model.Rows.{change_word as word_of_change, text_field as field_of_text, number_field as field_of_number, path_field as field_of_path, row as row_with};

use depot_rows::model::{Field, Row};
use depot_rows::paths::{DepotPath, Sequence, Text};
use itoa::Buffer;
use std::alloc::{AllocError, Global};

fn number_text(alloc: Global, number: u64) -> Result<Text, AllocError>
    ensures { IfOk result (λ text. text ≡ decimal number) }
{
    Text::from_bytes(alloc, Buffer::new().format(number).as_bytes())
}

/// A field with these bytes.
pub fn text_field(alloc: Global, name: &[u8], value: &[u8]) -> Result<Field, AllocError>
    ensures { IfOk result (λ field. field ≡ field_of_text name.now value.now) }
{
    Ok(Field {
        name: Text::from_bytes(alloc, name)?,
        value: Text::from_bytes(alloc, value)?,
    })
}

/// A field with this number.
pub fn number_field(alloc: Global, name: &[u8], number: u64) -> Result<Field, AllocError>
    ensures { IfOk result (λ field. field ≡ field_of_number name.now number) }
{
    Ok(Field {
        name: Text::from_bytes(alloc, name)?,
        value: number_text(alloc, number)?,
    })
}

/// A field with this path, as it is printed.
pub fn path_field(alloc: Global, name: &[u8], path: &DepotPath) -> Result<Field, AllocError>
    ensures { IfOk result (λ field. field ≡ field_of_path name.now path.now) }
{
    let text = path.print(alloc)?;
    text_field(alloc, name, text.as_bytes())
}

/// A row of these fields, without a content.
pub fn row_of(fields: Sequence<Field>) -> Row
    ensures { result ≡ row_with fields }
{
    Row {
        fields,
        content: None,
    }
}

/// A field with the number of a change, `default` for 0.
pub fn change_field(alloc: Global, name: &[u8], change: u32) -> Result<Field, AllocError>
    ensures { IfOk result (λ field. field ≡ field_of_text name.now (word_of_change change)) }
{
    if change == 0 {
        text_field(alloc, name, b"default")
    } else {
        number_field(alloc, name, u64::from(change))
    }
}
