//! Names of users, clients, hosts, groups, labels and counters.

ghost use Rattle.std.specs.Prelude.{◌≡◌, true, nat_eq, Some, refl};
ghost use Rattle.std.specs.Cmp.{partial_equiv_from_equiv};
ghost use Rattle.std.specs.Cmp.Lexicographic.{pointwise, slice_cmp, nat_list_cmp_total, nat_list_eq_equiv, texts_ties, texts_po};
ghost use Rattle.std.specs.Ordering.{nat_cmp};
ghost use Rattle.std.specs.List.{list_any};
ghost use Rattle.depot_path.specs.Answers.{Answers};
ghost use Rattle.depot_path.specs.Name.{is_barred, name_of, is_name as name_test};

use crate::digits::are_digits;
use crate::text::Text;
use crate::utf8::is_utf8;
use std::alloc::Global;
use std::cmp::Ordering;
use std::marker::Model;

/// Why a text is no name.
#[derive(Clone, Copy, PartialEq, Eq)]
pub enum NameFault {
    /// It isn't one.
    NotAName,
    /// No memory for it.
    Memory,
}

/// A name of 1 to 128 bytes of UTF-8 without control bytes, spaces and `/@#*%"`, which doesn't begin
/// with `-` and isn't all digits.
#[derive(Clone)]
pub struct Name {
    text: Text,
}

impl Drop for Name {
    fn drop(self) {
        let Name { text: _ } = self;
    }
}

impl Model for Name {
    ghost use Rattle.std.specs.Prelude.{◌≡◌, List, ℕ, true};
    ghost use Rattle.depot_path.specs.Name.{is_name};

    ghost Value = { List ℕ };

    ghost view = { λ name. name.text };

    ghost invariant = { λ name. is_name name.text ≡ true };
}

fn is_barred_byte(byte: u8) -> bool
    ensures { result ≡ is_barred byte }
{
    byte <= b' ' || byte == 0x7F || matches!(byte, b'/' | b'@' | b'#' | b'*' | b'%' | b'"')
}

fn has_barred_byte(bytes: &[u8]) -> bool
    ensures { result ≡ list_any is_barred bytes.now }
{
    bytes.iter().any(|byte| is_barred_byte(*byte))
}

/// Whether the bytes are a name.
pub fn is_name(bytes: &[u8]) -> bool
    ensures { result ≡ name_test bytes.now }
{
    !bytes.is_empty()
        && bytes.len() <= 128
        && bytes[0] != b'-'
        && !has_barred_byte(bytes)
        && !are_digits(bytes)
        && is_utf8(bytes)
}

impl Name {
    /// Reads a name.
    pub fn read(alloc: Global, text: &[u8]) -> Result<Self, NameFault>
        ensures { Answers NameFault.Memory result (name_of text.now) }
    {
        if !is_name(text) {
            return Err(NameFault::NotAName);
        }
        match Text::from_bytes(alloc, text) {
            Ok(text) => Ok(Name { text }),
            Err(_) => Err(NameFault::Memory),
        }
    }

    /// The bytes, which are a name.
    pub fn as_bytes(&self) -> &[u8]
        ensures value { result.now ≡ self.now }
        ensures named { name_test result.now ≡ true }
    {
        self.text.as_bytes()
    }
}

impl PartialEq for Name {
    ghost eq = { pointwise nat_eq };

    ghost laws = { partial_equiv_from_equiv nat_list_eq_equiv };

    fn eq(&self, other: &Name) -> bool {
        self.as_bytes() == other.as_bytes()
    }
}

impl Eq for Name {
    ghost laws = { nat_list_eq_equiv };
}

impl PartialOrd for Name {
    ghost partial_cmp = { λ a b. Some (slice_cmp nat_cmp a b) };

    ghost laws = { texts_po };

    fn partial_cmp(&self, other: &Name) -> Option<Ordering> {
        Some(self.cmp(other))
    }
}

impl Ord for Name {
    ghost cmp = { slice_cmp nat_cmp };

    ghost total = { nat_list_cmp_total };

    ghost matches_partial_cmp = { λ a b. refl };

    ghost matches_eq = { texts_ties };

    fn cmp(&self, other: &Name) -> Ordering {
        self.as_bytes().cmp(other.as_bytes())
    }
}
