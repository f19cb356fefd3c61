//! Numbers in forms.

ghost use Rattle.std.specs.Prelude.{◌≡◌, IfOk, nat_le, decimal};
ghost use Rattle.depot_rows.specs.depot_path.Digits.{number_of, up_to};
ghost use Rattle.depot_rows.specs.depot_model.Numerals.{is_numeral as numeral_test};
ghost use Rattle.row_rules.specs.Tests.{numeral_up_to as numeral_in, has_leading_zero as zero_test};

use depot_rows::paths::{Text, is_digits, number_up_to, value_up_to};
use itoa::Buffer;
use std::alloc::{AllocError, Global};

/// The number that digits spell, up to 4,294,967,295.
pub(crate) fn small_value(digits: &[u8]) -> Option<u32>
    ensures { result ≡ up_to 4294967295 (number_of digits.now) }
{
    match value_up_to(u64::from(u32::MAX), digits) {
        Some(number) => Some(number as u32),
        None => None,
    }
}

/// Whether digits spell a number other than 0.
pub(crate) fn is_positive(digits: &[u8]) -> bool
    ensures { result ≡ nat_le 1 (number_of digits.now) }
{
    match value_up_to(u64::MAX, digits) {
        Some(number) => number >= 1,
        None => true,
    }
}

/// A number as it is printed.
fn number_text(alloc: Global, number: u32) -> Result<Text, AllocError>
    ensures { IfOk result (λ text. text ≡ decimal number) }
{
    Text::from_bytes(alloc, Buffer::new().format(number).as_bytes())
}

/// The number without leading zeros that a text spells, up to another.
pub(crate) fn numeral_up_to(
    alloc: Global,
    most: u32,
    text: &[u8],
) -> Result<Option<u32>, AllocError>
    ensures { IfOk result (λ number. number ≡ numeral_in most text.now) }
{
    let Some(number) = number_up_to(u64::from(most), text) else {
        return Ok(None);
    };
    let number = number as u32;
    let printed = number_text(alloc, number)?;
    if printed.as_bytes() == text {
        Ok(Some(number))
    } else {
        Ok(None)
    }
}

/// Whether digits begin with a zero that is none of their number.
fn has_leading_zero(digits: &[u8]) -> bool
    ensures { result ≡ zero_test digits.now }
{
    match digits {
        [first, _, ..] => *first == b'0',
        _ => false,
    }
}

/// Whether a text is a number without leading zeros.
#[tactic(auto, using(crate::proofs::Decimals::numerals))]
pub(crate) fn is_numeral(text: &[u8]) -> bool
    ensures { result ≡ numeral_test text.now }
{
    is_digits(text) && (text.len() <= 64 && !has_leading_zero(text))
}
