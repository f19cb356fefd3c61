//! Dates in UTC.

ghost use Rattle.std.specs.Prelude.{◌≡◌, ◌≤◌, ◌<◌, ◌+◌, ◌*◌, pos, ◌+ℤ◌, ◌-ℤ◌, ◌*ℤ◌, length, if◌then◌else◌, IfSome};
ghost use Rattle.jiff_core.specs.Calendar.{IsEpochDay};
ghost use Rattle.depot_path.specs.Date.{has_byte as byte_test, has_shape as shape_test, has_date_shape as date_shape_test, part_at, is_day, is_clock, is_date, moment_of, day_number};
ghost use Rattle.depot_path.specs.Digits.{number_of};

use jiff_core::civil::Date;

fn has_byte(expected: u8, byte: u8) -> bool
    ensures { result ≡ byte_test expected byte }
{
    if expected == b'd' {
        byte >= b'0' && byte <= b'9'
    } else {
        byte == expected
    }
}

/// Whether a text has the form of the shape, which has `d` for each digit.
fn has_shape(shape: &[u8], text: &[u8]) -> bool
    ensures { result ≡ shape_test shape.now text.now }
{
    let mut shape = shape;
    let mut text = text;
    while let [expected, shape_after @ ..] = shape {
        match text {
            [byte, text_after @ ..] if has_byte(*expected, *byte) => {
                shape = shape_after;
                text = text_after;
            }
            _ => return false,
        }
    }
    text.is_empty()
}

/// Whether a word has the form of a date, with or without a time.
pub(crate) fn has_date_shape(word: &[u8]) -> bool
    ensures { result ≡ date_shape_test word.now }
{
    has_shape(b"dddd/dd/dd", word) || has_shape(b"dddd/dd/dd:dd:dd:dd", word)
}

/// The number that at most four digits spell.
fn number(digits: &[u8]) -> u32
    requires { length digits.now ≤ 4 }
    ensures value { result ≡ number_of digits.now }
    ensures small { result ≤ 229_977 }
{
    let mut number: u32 = 0;
    for digit in digits {
        number = number * 10 + u32::from(digit.saturating_sub(b'0'));
    }
    number
}

/// The number of so many digits at a place of a text; 0 past its end.
fn part(text: &[u8], from: usize, len: usize) -> u32
    requires { len ≤ 4 }
    ensures value { result ≡ part_at from len text.now }
    ensures small { result ≤ 229_977 }
{
    let rest = text.get(from..).unwrap_or(&[]);
    number(rest.get(..len).unwrap_or(rest))
}

/// The days from 1970 to a day of the calendar, negative before it.
fn day_since_1970(year: u32, month: u32, day: u32) -> Option<i32>
    ensures value { result ≡ (if is_day year month day then Some (pos (day_number year month day) -ℤ pos 719162) else None) }
    ensures range { IfSome result IsEpochDay }
{
    if year < 1 || year > 9999 || month < 1 || month > 12 || day < 1 || day > 31 {
        return None;
    }
    match Date::new(year as i16, month as i8, day as i8) {
        Ok(date) => Some(date.to_unix_epoch_day()),
        Err(_) => None,
    }
}

/// The seconds from midnight to a time of day.
fn second_of_day(hour: u32, minute: u32, second: u32) -> Option<u32>
    ensures value { result ≡ (if is_clock hour minute second then Some (3600 * hour + 60 * minute + second) else None) }
    ensures range { IfSome result (λ seconds. seconds < 86400) }
{
    if hour < 24 && minute < 60 && second < 60 {
        Some(3600 * hour + 60 * minute + second)
    } else {
        None
    }
}

/// The seconds from 1970 to a second of a day.
fn moment_at(day: i32, second: u32) -> i64
    requires day_in { IsEpochDay day }
    requires second_in { second < 86400 }
    ensures { result ≡ day *ℤ pos 86400 +ℤ pos second }
{
    i64::from(day) * 86_400 + i64::from(second)
}

/// The seconds from 1970 to the date that a word of a date's shape spells, if it is one. Without a time it is midnight.
pub(crate) fn read_moment(word: &[u8]) -> Option<i64>
    ensures { result ≡ (if is_date word.now then Some (moment_of word.now) else None) }
{
    let day = day_since_1970(part(word, 0, 4), part(word, 5, 2), part(word, 8, 2))?;
    let second = second_of_day(part(word, 11, 2), part(word, 14, 2), part(word, 17, 2))?;
    Some(moment_at(day, second))
}
