//! What is wrong with a text that is no form, and why a form can't have a value.

ghost use Rattle.std.specs.Prelude.{◌≡◌};
ghost use Rattle.spec_form.specs.Reading.{whole_fault};
ghost use Rattle.spec_form.specs.declared.fault.FormFaultKind.TheVariants.{Memory};
ghost use Rattle.spec_form.specs.declared.fault.ValueFault.TheVariants as values;

use std::alloc::{AllocError, AllocFailed};

/// What is wrong with a text that is no form, or with one of its lines.
#[derive(Clone, Copy, PartialEq, Eq)]
pub enum FormFaultKind {
    /// The line begins no field and goes on with none.
    NoField,
    /// The line begins a field that forms of this shape don't have.
    UnknownField,
    /// The line begins a field that was there before.
    Twice,
    /// A field is absent that each form of this shape has.
    Missing,
    /// The text isn't UTF-8.
    NotUtf8,
    /// There is no memory for the form.
    Memory,
}

/// Why a text is no form: what is wrong, and in which line.
#[derive(Clone, Copy, PartialEq, Eq)]
pub struct FormFault {
    /// What is wrong.
    pub what: FormFaultKind,
    /// In which line, counted from 1; 0 where it is no single line that is wrong.
    pub line: usize,
}

impl FormFault {
    /// A fault of no single line.
    pub fn whole(what: FormFaultKind) -> Self
        ensures { result ≡ whole_fault what }
    {
        FormFault { what, line: 0 }
    }
}

impl From<AllocError> for FormFaultKind {
    ghost from_gives = { λ _ kind. kind ≡ Memory };

    fn from(_error: AllocError) -> Self {
        FormFaultKind::Memory
    }
}

impl<T: Drop> From<AllocFailed<T>> for FormFaultKind {
    ghost from_gives = { λ _ kind. kind ≡ Memory };

    fn from(_error: AllocFailed<T>) -> Self {
        FormFaultKind::Memory
    }
}

/// Why a form can't have a value in one of its fields.
#[derive(Clone, Copy, PartialEq, Eq)]
pub enum ValueFault {
    /// The form has no single field of this name.
    NoSingleField,
    /// No single field may have this value: it isn't one line of UTF-8 that begins with no blank.
    NotAValue,
    /// There is no memory for the form.
    Memory,
}

impl From<AllocError> for ValueFault {
    ghost from_gives = { λ _ fault. fault ≡ values.Memory };

    fn from(_error: AllocError) -> Self {
        ValueFault::Memory
    }
}
