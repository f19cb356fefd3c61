//! Numbers at the front.

ghost use Rattle.std.specs.Prelude.{◌≡◌, ◌+◌, ◌*◌, ◌<◌, nat_le, if◌then◌else◌, Some, None};
ghost use Rattle.record_text.specs.Spelling.{number_at};
ghost use Rattle.record_text.specs.Grammar.{largest_count, largest_wide};
ghost use Rattle.record_text.specs.Answers.{Gives};

use crate::fault::{Part, RecordFault};

/// The number with one more digit, if it is at most so great.
fn grown(number: u64, digit: u64, most: u64) -> Option<u64>
    ensures { result ≡ (if nat_le (10 * number + digit) most then Some (10 * number + digit) else None) }
{
    match number.checked_mul(10) {
        None => None,
        Some(tens) => match tens.checked_add(digit) {
            None => None,
            Some(sum) => { if sum <= most { Some(sum) } else { None } }
        },
    }
}

/// The number at the front, from the least to the most, and the bytes behind the byte that ends it.
///
/// It is decimal without leading zeros. A fault is as for a record's field.
pub fn number_of(
    least: u64,
    most: u64,
    ender: u8,
    bytes: &[u8],
) -> Result<(u64, &[u8]), RecordFault>
    ensures { Gives (λ x. x.0) (λ x. x.1.now) result (number_at least most ender bytes.now) }
{
    let mut value: Option<u64> = None;
    let mut rest = bytes;
    while let [byte, after @ ..] = rest {
        let byte = *byte;
        let next = match value {
            None => {
                if b'0' <= byte && byte <= b'9' && least <= byte as u64 - 48 {
                    Some(byte as u64 - 48)
                } else {
                    None
                }
            }
            Some(number) => {
                if byte == ender {
                    return Ok((number, after));
                }
                if b'0' <= byte && byte <= b'9' && 0 < number {
                    grown(number, byte as u64 - 48, most)
                } else {
                    None
                }
            }
        };
        match next {
            None => {
                return Err(RecordFault::Wrong {
                    part: Part::Field,
                    left: rest.len(),
                });
            }
            Some(_) => {
                value = next;
                rest = after;
            }
        }
    }
    Err(RecordFault::Cut)
}

/// A number from 1 to 2,147,483,647 at the front.
pub(crate) fn line_of(ender: u8, bytes: &[u8]) -> Result<(u32, &[u8]), RecordFault>
    requires { ender < 48 }
    ensures { Gives (λ x. x.0) (λ x. x.1.now) result (number_at 1 largest_count ender bytes.now) }
{
    let (number, rest) = number_of(1, 2_147_483_647, ender, bytes)?;
    Ok((number as u32, rest))
}

/// A number from 0 to 2,147,483,647 at the front.
pub(crate) fn count_of(ender: u8, bytes: &[u8]) -> Result<(u32, &[u8]), RecordFault>
    requires { ender < 48 }
    ensures { Gives (λ x. x.0) (λ x. x.1.now) result (number_at 0 largest_count ender bytes.now) }
{
    let (number, rest) = number_of(0, 2_147_483_647, ender, bytes)?;
    Ok((number as u32, rest))
}

/// A number from 0 to 18,446,744,073,709,551,615 at the front.
pub(crate) fn wide_of(ender: u8, bytes: &[u8]) -> Result<(u64, &[u8]), RecordFault>
    ensures { Gives (λ x. x.0) (λ x. x.1.now) result (number_at 0 largest_wide ender bytes.now) }
{
    number_of(0, u64::MAX, ender, bytes)
}
