//! Words of digits, and the numbers that they spell.

ghost use Rattle.std.specs.Prelude.{◌≡◌, ◌≤◌, IfSome};
ghost use Rattle.std.specs.List.{list_all};
ghost use Rattle.depot_path.specs.Bytes.{is_digit};
ghost use Rattle.depot_path.specs.Digits as spec;
ghost use Rattle.depot_path.specs.Digits.{number_of, up_to};

/// Whether all bytes are digits, as those of an empty text are.
pub fn are_digits(bytes: &[u8]) -> bool
    ensures { result ≡ list_all is_digit bytes.now }
{
    bytes.iter().all(|byte| *byte >= b'0' && *byte <= b'9')
}

/// Whether a word is one digit or more, and nothing else.
pub fn is_digits(word: &[u8]) -> bool
    ensures { result ≡ spec.is_digits word.now }
{
    !word.is_empty() && are_digits(word)
}

/// The number with one more digit behind it, where it is at most the limit.
fn with_digit(most: u64, number: u64, digit: u8) -> Option<u64>
    ensures { result ≡ up_to most (spec.with_digit number digit) }
{
    let number = number
        .checked_mul(10)?
        .checked_add(u64::from(digit.saturating_sub(b'0')))?;
    if number <= most { Some(number) } else { None }
}

/// The number that digits spell, where it is at most the limit; an empty text's is 0. Each byte counts by its distance
/// above `0`, also one that is no digit: whether they are digits is for the caller to know.
pub fn value_up_to(most: u64, digits: &[u8]) -> Option<u64>
    ensures value { result ≡ up_to most (number_of digits.now) }
    ensures within { IfSome result (λ number. number ≤ most) }
{
    let mut number: u64 = 0;
    for digit in digits {
        let Some(longer) = with_digit(most, number, *digit) else {
            return None;
        };
        number = longer;
    }
    Some(number)
}

/// The number that a word of digits spells, where it is at most the limit. Leading zeros are digits.
pub fn number_up_to(most: u64, word: &[u8]) -> Option<u64>
    ensures value { result ≡ spec.number_up_to most word.now }
    ensures within { IfSome result (λ number. number ≤ most) }
{
    if is_digits(word) {
        value_up_to(most, word)
    } else {
        None
    }
}
