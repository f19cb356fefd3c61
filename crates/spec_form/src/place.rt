//! In which line of a text a field begins, and in which its lines stand.

ghost use Rattle.std.specs.Prelude.{◌≡◌};
ghost use Rattle.spec_form.specs.Texts.{before, behind};
ghost use Rattle.spec_form.specs.Reading.{is_further as further_test, is_skipped as skipped_test};
ghost use Rattle.spec_form.specs.Places.{begins_field as begins_test, field_place as place_of_field, has_line as line_test, is_inside as inside_test, line_place as place_of_line};

use crate::cut::{cut_at, first_line, is_blank_byte, trim_start};

fn is_skipped(line: &[u8]) -> bool
    ensures { result ≡ skipped_test line.now }
{
    match line {
        [] => true,
        [first, ..] => *first == b'#',
    }
}

fn is_further(line: &[u8]) -> bool
    ensures { result ≡ further_test line.now }
{
    match line {
        [] => false,
        [first, ..] => is_blank_byte(*first),
    }
}

/// What stands before the first colon of a line, and behind it.
fn name_and_rest(line: &[u8]) -> (&[u8], &[u8])
    ensures name { result.0.now ≡ before 0x3A line.now }
    ensures rest { result.1.now ≡ behind 0x3A line.now }
{
    match cut_at(line, b':') {
        Some(parts) => parts,
        None => (line, &[]),
    }
}

fn begins_field(line: &[u8], name: &[u8]) -> bool
    ensures { result ≡ begins_test name.now line.now }
{
    !is_skipped(line) && !is_further(line) && name_and_rest(line).0 == name
}

fn has_line(line: &[u8], name: &[u8], inside: bool) -> bool
    ensures { result ≡ line_test name.now inside line.now }
{
    inside && is_further(line)
        || begins_field(line, name) && !trim_start(name_and_rest(line).1).is_empty()
}

fn is_inside(line: &[u8], name: &[u8], inside: bool) -> bool
    ensures { result ≡ inside_test name.now inside line.now }
{
    if is_skipped(line) || is_further(line) {
        inside
    } else {
        name_and_rest(line).0 == name
    }
}

/// The line of a form's text, counted from 1, in which a line of a field stands; the field's lines
/// are counted from 0 by `index`. 0 where the field has no such line.
pub fn line_place(text: &[u8], field: &str, index: usize) -> usize
    ensures { result ≡ place_of_line text.now field.now index }
{
    let name = field.as_bytes();
    let mut rest = text;
    let mut number = 1;
    let mut inside = false;
    let mut left = index;
    while !rest.is_empty() {
        let (line, behind) = first_line(rest);
        if has_line(line, name, inside) {
            if left == 0 {
                return number;
            }
            left -= 1;
        }
        inside = is_inside(line, name, inside);
        rest = behind;
        number += 1;
    }
    0
}

/// The line of a form's text, counted from 1, in which a field begins; 0 where there is none.
pub fn field_place(text: &[u8], field: &str) -> usize
    ensures { result ≡ place_of_field text.now field.now }
{
    let name = field.as_bytes();
    let mut rest = text;
    let mut number = 1;
    while !rest.is_empty() {
        let (line, behind) = first_line(rest);
        if begins_field(line, name) {
            return number;
        }
        rest = behind;
        number += 1;
    }
    0
}
