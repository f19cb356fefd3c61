//! The fields of a form: the lines of each by its name.

ghost use Rattle.std.specs.Prelude.{◌≡◌, false, [], ◌∷◌, ◌++◌, length, map, reverse, IfOk, OnOk};
ghost use Rattle.depot_path.specs.Answers.{Answers, on_ok};
ghost use Rattle.spec_form.specs.Form.{has_field, lines_in, with_value};
ghost use Rattle.spec_form.specs.Fields.{added, first_kind, lengthened, seen_fields};

use crate::fault::FormFaultKind;
use crate::form::Field;
use crate::reader::value_lines;
use crate::shape::{FieldKind, Shape};
use depot_path::{Sequence, Text};
use indexmap::IndexMap;
use std::alloc::{AllocError, Global};
use std::marker::Model;

/// The fields of a form, in the order in which they were first seen. No two have one name.
#[derive(Drop)]
pub struct Fields {
    by_name: IndexMap<Vec<u8>, Sequence<Text>>,
}

impl Model for Fields {
    ghost use Rattle.std.specs.Prelude.{List};
    ghost use Rattle.spec_form.specs.declared.form.Field.{Field};

    ghost Value = { List Field };

    ghost use Rattle.spec_form.specs.Fields.{seen_fields};

    ghost view = { λ fields. seen_fields fields.by_name.entries };
}

impl Fields {
    /// No fields, which take no memory.
    pub(crate) fn new(alloc: Global) -> Self
        ensures { result ≡ [] }
    {
        Fields {
            by_name: IndexMap::new(alloc),
        }
    }

    /// How many fields there are.
    pub fn len(&self) -> usize
        ensures { result ≡ length self.now }
    {
        self.by_name.len()
    }

    /// The lines of each field by its name, in the order in which the fields were first seen.
    pub fn by_name(&self) -> &IndexMap<Vec<u8>, Sequence<Text>>
        ensures { seen_fields result.now.entries ≡ self.now }
    {
        &self.by_name
    }

    /// Whether there is a field of this name.
    pub(crate) fn has(&self, name: &[u8]) -> bool
        ensures { result ≡ has_field name.now self.now }
    {
        self.by_name.contains_key(name)
    }

    /// The lines of a field, none where it is absent.
    pub(crate) fn lines(&self, name: &[u8]) -> &[Text]
        ensures { result.now ≡ lines_in self.now name.now }
    {
        match self.by_name.get(name) {
            Some(lines) => lines.as_slice(),
            None => &[],
        }
    }

    /// The kind that the last field has in forms of a shape.
    pub(crate) fn last_kind(&self, shape: Shape) -> Option<FieldKind>
        ensures { result ≡ first_kind shape (reverse self.now) }
    {
        let (name, _) = self.by_name.last()?;
        shape.kind(name)
    }

    /// Adds a field behind the others, of which none has its name.
    fn push(&mut self, field: Field) -> Result<(), AllocError>
        requires { has_field field.name self.old ≡ false }
        ensures { OnOk result (self.new ≡ self.old ++ field ∷ []) }
    {
        let Field { name, lines } = field;
        self.by_name.insert(name.into_vec(), lines)?;
        Ok(())
    }

    /// Adds a field behind the others, if none of them has its name.
    pub(crate) fn add(&mut self, field: Field) -> Result<(), FormFaultKind>
        ensures { Answers FormFaultKind.Memory (on_ok (λ _. self.new) result) (added self.old field) }
    {
        if self.has(field.name.as_bytes()) {
            return Err(FormFaultKind::Twice);
        }
        self.push(field)?;
        Ok(())
    }

    /// Adds a line to the last field.
    pub(crate) fn add_line(&mut self, line: Text) -> Result<(), AllocError>
        ensures { OnOk result (reverse self.new ≡ lengthened line (reverse self.old)) }
    {
        if let Some(lines) = self.by_name.last_mut() {
            lines.push(line)?;
        }
        Ok(())
    }

    /// A copy of the fields, with a value in place of the lines of the field that has the name.
    pub(crate) fn with(&self, alloc: Global, name: &[u8], value: &[u8]) -> Result<Self, AllocError>
        ensures { IfOk result (λ copy. copy ≡ map (with_value name.now value.now) self.now) }
    {
        let mut copy = Fields::new(alloc);
        for (key, lines) in &self.by_name {
            copy.push(copy_field(alloc, key, lines.as_slice(), name, value)?)?;
        }
        Ok(copy)
    }
}

fn copy_lines(alloc: Global, lines: &[Text]) -> Result<Sequence<Text>, AllocError>
    ensures { IfOk result (λ copy. copy ≡ lines.now) }
{
    let mut copy = Sequence::new(alloc);
    for line in lines {
        copy.push(Text::from_bytes(alloc, line.as_bytes())?)?;
    }
    Ok(copy)
}

/// A copy of a field, with a value in place of its lines if it has the name.
fn copy_field(
    alloc: Global,
    key: &[u8],
    lines: &[Text],
    name: &[u8],
    value: &[u8],
) -> Result<Field, AllocError>
    ensures { IfOk result (λ copy. copy ≡ with_value name.now value.now (record { name = key.now; lines = lines.now })) }
{
    let lines = if key == name {
        value_lines(alloc, value)?
    } else {
        copy_lines(alloc, lines)?
    };
    Ok(Field {
        name: Text::from_bytes(alloc, key)?,
        lines,
    })
}
