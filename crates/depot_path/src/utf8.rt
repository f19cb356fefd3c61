//! Whether bytes are text.

ghost use Rattle.std.specs.Prelude.{◌≡◌};
ghost use Rattle.depot_path.specs.Utf8.{is_utf8 as utf8_test, tail_of as tail_after, tail_past};

/// What follows within a character.
#[derive(Clone, Copy, PartialEq, Eq)]
pub struct Tail {
    /// How many bytes follow.
    pub more: u8,
    /// The least that the next one may be.
    pub low: u8,
    /// The greatest that the next one may be.
    pub high: u8,
}

/// What follows the first byte of a character, if a character begins with it.
fn tail_of(first: u8) -> Option<Tail>
    ensures { result ≡ tail_after first }
{
    let (more, low, high) = match first {
        0x00..=0x7F => (0, 0x80, 0xBF),
        0xC2..=0xDF => (1, 0x80, 0xBF),
        0xE0 => (2, 0xA0, 0xBF),
        0xED => (2, 0x80, 0x9F),
        0xE1..=0xEF => (2, 0x80, 0xBF),
        0xF0 => (3, 0x90, 0xBF),
        0xF1..=0xF3 => (3, 0x80, 0xBF),
        0xF4 => (3, 0x80, 0x8F),
        0x80..=0xC1 | 0xF5..=0xFF => return None,
    };
    Some(Tail { more, low, high })
}

/// What follows after one more byte, if it may stand there.
fn next_tail(tail: Tail, byte: u8) -> Option<Tail>
    ensures { result ≡ tail_past tail byte }
{
    if tail.more == 0 {
        tail_of(byte)
    } else if tail.low <= byte && byte <= tail.high {
        Some(Tail {
            more: tail.more - 1,
            low: 0x80,
            high: 0xBF,
        })
    } else {
        None
    }
}

/// Whether the bytes are UTF-8 (RFC 3629).
pub fn is_utf8(bytes: &[u8]) -> bool
    ensures { result ≡ utf8_test bytes.now }
{
    let mut tail = Tail {
        more: 0,
        low: 0x80,
        high: 0xBF,
    };
    for byte in bytes {
        match next_tail(tail, *byte) {
            Some(next) => tail = next,
            None => return false,
        }
    }
    tail.more == 0
}
