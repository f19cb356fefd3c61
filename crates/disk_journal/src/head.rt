//! How long an open mark and the group behind it are, by the group's head.

ghost use Rattle.std.specs.Prelude.{◌≡◌, ◌≢◌, ◌<◌, ◌≤◌, ◌+◌, ◌++◌, ◌∷◌, ◌==◌, ◌^◌, ℕ, List, length, decimal, position, Some, None, IfSome, IsSomeAnd};
ghost use Rattle.disk_journal.specs.Text.{mark};
ghost use Rattle.disk_journal.specs.Head.{HasBlock};

/// What follows these bytes, where the others begin with them.
fn behind<'a>(word: &[u8], bytes: &'a [u8]) -> Option<&'a [u8]>
    ensures found { (rest : List ℕ) → bytes.now ≡ word.now ++ rest → IsSomeAnd result (λ behind. behind.now ≡ rest) }
    ensures only { IfSome result (λ behind. bytes.now ≡ word.now ++ behind.now) }
{
    bytes.strip_prefix(word)
}

/// The place of the first such byte.
fn place_of(wanted: u8, bytes: &[u8]) -> Option<usize>
    ensures place { result ≡ position (λ byte. byte == wanted) bytes.now }
    ensures within { IfSome result (λ place. place < length bytes.now) }
{
    bytes.iter().position(|byte| *byte == wanted)
}

/// The number whose digits these are.
fn number_of(digits: &[u8]) -> Option<u64>
    ensures { (n : ℕ) → n < 2 ^ 64 → digits.now ≡ decimal n → result ≡ Some n }
{
    match str::from_utf8(digits) {
        Ok(text) => text.parse::<u64>().ok(),
        Err(_) => None,
    }
}

/// The number whose digits stand before the first such byte, and what follows that byte.
fn number_before(ender: u8, bytes: &[u8]) -> Option<(u64, &[u8])>
    ensures number { (n : ℕ) (after : List ℕ) → ender < 48 → n < 2 ^ 64 → bytes.now ≡ decimal n ++ ender ∷ after →
        IsSomeAnd result (λ x. (x.0 ≡ n) × (x.1.now ≡ after)) }
    ensures within { IfSome result (λ x. length x.1.now ≤ length bytes.now) }
{
    let end = place_of(ender, bytes)?;
    let (digits, _) = bytes.split_at(end);
    let (_, after) = bytes.split_at(end + 1);
    let number = number_of(digits)?;
    Some((number, after))
}

/// The bytes of a head's rest, from its number on, and of the records that it promises.
fn length_from_number(rest: &[u8]) -> Option<u64>
    ensures { (number size : ℕ) (after : List ℕ) → number < 2 ^ 63 → size < 2 ^ 63 →
        rest.now ≡ decimal number ++ 32 ∷ (decimal size ++ 10 ∷ after) →
        length (decimal number) + length (decimal size) + 2 + size < 2 ^ 64 →
        result ≡ Some (length (decimal number) + length (decimal size) + 2 + size) }
{
    let (_, line) = number_before(b' ', rest)?;
    let (size, records) = number_before(b'\n', line)?;
    size.checked_add((rest.len() - records.len()) as u64)
}

/// The length of an open mark and the group behind it, where the bytes begin with both or with the mark and the
/// group's head. Nothing where they begin with a mark that isn't open.
pub(crate) fn block_length(bytes: &[u8]) -> Option<u64>
    ensures block { (n : ℕ) → HasBlock bytes.now n → n < 2 ^ 63 → result ≡ Some n }
    ensures closed { (byte : ℕ) (rest : List ℕ) → byte ≢ 101 → bytes.now ≡ mark byte ++ rest → result ≡ None }
    ensures some { IfSome result (λ n. 0 < n) }
{
    let rest = behind(b"@ex@\n@nx@ ", bytes)?;
    let length = length_from_number(rest)?;
    length.checked_add(10)
}
