//! Answers compared with those that are expected.

/// The number, from 1, of the first line in which two texts differ, if there is one.
pub fn first_difference(answered: &[u8], expected: &[u8]) -> Option<u64> {
    let mut answers = answered.split(|byte| *byte == b'\n');
    let mut number = 0u64;
    for line in expected.split(|byte| *byte == b'\n') {
        number = number.saturating_add(1);
        if answers.next() != Some(line) {
            return Some(number);
        }
    }
    match answers.next() {
        Some(_) => Some(number.saturating_add(1)),
        None => None,
    }
}

/// How many lines a text has.
pub fn line_count(text: &[u8]) -> usize {
    text.iter().filter(|byte| **byte == b'\n').count()
}

/// The line of a number, from 1, without its line feed, and nothing behind the last.
pub fn line_at(text: &[u8], number: u64) -> &[u8] {
    let mut left = number;
    for line in text.split(|byte| *byte == b'\n') {
        left = left.saturating_sub(1);
        if left == 0 {
            return line;
        }
    }
    &[]
}
