//! Forms as values.

ghost use Rattle.std.specs.Prelude.{◌≡◌, IfOk};
ghost use Rattle.depot_path.specs.Answers.{Answers};
ghost use Rattle.spec_form.specs.Form.{has_single as single_test, is_value as value_test, lines_of, with_line};
ghost use Rattle.spec_form.specs.Reading.{form_of, no_memory};
ghost use Rattle.spec_form.specs.Printing.{printed_form};

use crate::cut::{cut_at, trim_start};
use crate::fault::{FormFault, FormFaultKind, ValueFault};
use crate::fields::Fields;
use crate::print::print_fields;
use crate::reader::{lacks_required, read_fields};
use crate::shape::{FieldKind, Shape};
use depot_path::{Sequence, Text, is_utf8};
use std::alloc::{AllocError, Global};
use std::marker::Model;

/// A field of a form, as it is read and as contracts see it.
#[derive(Drop)]
pub struct Field {
    /// Its name.
    pub name: Text,
    /// Its lines. A single field has at most one, and that isn't empty.
    pub lines: Sequence<Text>,
}

/// A form of some shape, with its fields in the order in which they were first seen (Helix Core
/// Command-Line Reference, on specs and their forms). Each form that there is prints to a text
/// that reads to the same form.
pub struct Form {
    shape: Shape,
    fields: Fields,
}

impl Drop for Form {
    fn drop(self) {
        let Form {
            shape: _,
            fields: _,
        } = self;
    }
}

impl Model for Form {
    ghost use Rattle.spec_form.specs.Form.{FormValue};

    ghost Value = { FormValue };

    ghost use Rattle.spec_form.specs.Printing.{ReadsBack};

    ghost view = { λ form. record { shape = form.shape; fields = form.fields } };

    ghost invariant = { λ form. ReadsBack (record { shape = form.shape; fields = form.fields }) };
}

/// Whether a single field may have this value: one line of UTF-8 that begins with no blank. The empty
/// line stands for no value.
pub fn is_value(line: &[u8]) -> bool
    ensures { result ≡ value_test line.now }
{
    is_utf8(line) && cut_at(line, b'\n').is_none() && trim_start(line) == line
}

impl Form {
    /// Reads a form of a shape. A fault is the first that a reader from the top meets: first that
    /// the text isn't UTF-8, then the first line that is wrong, then that a field is absent.
    pub fn read(alloc: Global, text: &[u8], shape: Shape) -> Result<Self, FormFault>
        ensures read { Answers no_memory result (form_of shape text.now) }
        ensures shape { IfOk result (λ form. form.shape ≡ shape) }
    {
        if !is_utf8(text) {
            return Err(FormFault::whole(FormFaultKind::NotUtf8));
        }
        let fields = read_fields(alloc, text, shape)?;
        if lacks_required(shape.rows(), &fields) {
            return Err(FormFault::whole(FormFaultKind::Missing));
        }
        Ok(Form { shape, fields })
    }

    /// The text of the form. Reading it gives the form.
    pub fn print(&self, alloc: Global) -> Result<Text, AllocError>
        ensures text { IfOk result (λ text. text ≡ printed_form self.now) }
        ensures reads { IfOk result (λ text. form_of self.now.shape text ≡ Ok self.now) }
    {
        print_fields(alloc, self.shape, &self.fields)
    }

    /// The shape.
    pub fn shape(&self) -> Shape
        ensures { result ≡ self.now.shape }
    {
        self.shape
    }

    /// The fields, in the order in which they were first seen.
    pub fn fields(&self) -> &Fields
        ensures { result.now ≡ self.now.fields }
    {
        &self.fields
    }

    /// The lines of a field, none where it is absent.
    pub fn lines(&self, field: &str) -> &[Text]
        ensures { result.now ≡ lines_of self.now field.now }
    {
        self.fields.lines(field.as_bytes())
    }

    /// Whether the form has a single field of this name.
    fn has_single(&self, name: &[u8]) -> bool
        ensures { result ≡ single_test name.now self.now }
    {
        self.shape.kind(name) == Some(FieldKind::Single) && self.fields.has(name)
    }

    /// The form with this line as the value of a single field that it has, and all else as it was. An
    /// empty line leaves the field without a value.
    ///
    /// It is refused first that the form has no single field of the name, then that the line is no value.
    pub fn with(&self, alloc: Global, field: &str, line: &[u8]) -> Result<Self, ValueFault>
        ensures { Answers ValueFault.Memory result (with_line field.now line.now self.now) }
    {
        let name = field.as_bytes();
        if !self.has_single(name) {
            return Err(ValueFault::NoSingleField);
        }
        if !is_value(line) {
            return Err(ValueFault::NotAValue);
        }
        let fields = self.fields.with(alloc, name, line)?;
        Ok(Form {
            shape: self.shape,
            fields,
        })
    }
}
