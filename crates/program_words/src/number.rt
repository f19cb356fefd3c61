//! The numbers that the options are given.

ghost use Rattle.std.specs.Prelude.{◌≡◌};
ghost use Rattle.program_words.specs.Words as spec;

use depot_path::number_up_to;

/// The number that an option is given by a text of 1 to 10 digits, where it is in these limits.
pub(crate) fn number_in(least: u32, most: u32, text: &[u8]) -> Option<u32>
    ensures { result ≡ spec.number_in least most text.now }
{
    if text.len() > 10 {
        return None;
    }
    match number_up_to(u64::from(most), text) {
        Some(number) if number >= u64::from(least) => Some(number as u32),
        _ => None,
    }
}
