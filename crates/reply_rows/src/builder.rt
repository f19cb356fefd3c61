//! Rows, field by field.

ghost use Rattle.std.specs.Prelude.{◌≡◌, ◌∷◌, ◌++◌, [], IfOk, Ok};
ghost use Rattle.depot_rows.specs.depot_model.Rows.{change_word as word_of_change, text_field as field_of_text, number_field as field_of_number, path_field as field_of_path, row as row_with};

use crate::fields::{change_field, number_field, path_field, row_of, text_field};
use depot_rows::model::{Field, Row};
use depot_rows::paths::{DepotPath, Sequence};
use std::alloc::{AllocError, Global};
use std::marker::Model;

/// A row without a content, to which fields are added. The one error of each method is want of memory, and then the row
/// is gone.
#[derive(Drop)]
pub struct RowBuilder {
    alloc: Global,
    fields: Sequence<Field>,
}

impl Model for RowBuilder {
    ghost use Rattle.std.specs.Prelude.{List};
    ghost use Rattle.depot_rows.specs.depot_model.declared.reply.Field.{Field};

    ghost Value = { List Field };

    ghost view = { λ builder. builder.fields };
}

/// Items with one more, if it was made.
fn with_made<T: Drop>(
    items: Sequence<T>,
    made: Result<T, AllocError>,
) -> Result<Sequence<T>, AllocError>
    ensures { IfOk result (λ all. (item : T) × (made ≡ Ok item) × (all ≡ items ++ item ∷ [])) }
{
    let mut items = items;
    items.push(made?)?;
    Ok(items)
}

impl RowBuilder {
    /// A row without fields, which takes no memory.
    pub fn new(alloc: Global) -> Self
        ensures { result ≡ [] }
    {
        RowBuilder {
            alloc,
            fields: Sequence::new(alloc),
        }
    }

    /// With a field with these bytes.
    pub fn text(self, name: &[u8], value: &[u8]) -> Result<Self, AllocError>
        ensures { IfOk result (λ more. more ≡ self ++ field_of_text name.now value.now ∷ []) }
    {
        let alloc = self.alloc;
        let fields = with_made(self.fields, text_field(alloc, name, value))?;
        Ok(RowBuilder { alloc, fields })
    }

    /// With a field with this number.
    pub fn number(self, name: &[u8], number: u64) -> Result<Self, AllocError>
        ensures { IfOk result (λ more. more ≡ self ++ field_of_number name.now number ∷ []) }
    {
        let alloc = self.alloc;
        let fields = with_made(self.fields, number_field(alloc, name, number))?;
        Ok(RowBuilder { alloc, fields })
    }

    /// With a field with this path, as it is printed.
    pub fn path(self, name: &[u8], path: &DepotPath) -> Result<Self, AllocError>
        ensures { IfOk result (λ more. more ≡ self ++ field_of_path name.now path.now ∷ []) }
    {
        let alloc = self.alloc;
        let fields = with_made(self.fields, path_field(alloc, name, path))?;
        Ok(RowBuilder { alloc, fields })
    }

    /// With a field with the number of a change, `default` for 0.
    pub fn change(self, name: &[u8], change: u32) -> Result<Self, AllocError>
        ensures { IfOk result (λ more. more ≡ self ++ field_of_text name.now (word_of_change change) ∷ []) }
    {
        let alloc = self.alloc;
        let fields = with_made(self.fields, change_field(alloc, name, change))?;
        Ok(RowBuilder { alloc, fields })
    }

    /// The row.
    pub fn row(self) -> Row
        ensures { result ≡ row_with self }
    {
        row_of(self.fields)
    }
}
