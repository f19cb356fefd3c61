//! Cutting a text into lines, and a line into its parts.

ghost use Rattle.std.specs.Prelude.{◌≡◌, ◌∷◌, [], true, false, IfNone, IfSome, length, ◌<◌, ◌≢◌};
ghost use Rattle.depot_path.specs.Bytes.{is_among};
ghost use Rattle.spec_form.specs.Texts.{before, behind, is_blank, text_lines, trimmed_end, trimmed_start};

/// What stands before the first such byte of a text, and behind it.
pub fn cut_at(text: &[u8], byte: u8) -> Option<(&[u8], &[u8])>
    ensures found { IfSome result (λ parts. (is_among text.now byte ≡ true) × (parts.0.now ≡ before byte text.now) ×
        (parts.1.now ≡ behind byte text.now)) }
    ensures absent { IfNone result (is_among text.now byte ≡ false) }
{
    for (i, b) in text.iter().enumerate() {
        if *b == byte {
            return Some((&text[..i], &text[i + 1..]));
        }
    }
    None
}

/// The first line of a text, without its end, and what follows it.
pub fn first_line(text: &[u8]) -> (&[u8], &[u8])
    requires { text.now ≢ [] }
    ensures lines { text_lines text.now ≡ result.0.now ∷ text_lines result.1.now }
    ensures shorter { length result.1.now < length text.now }
{
    match cut_at(text, b'\n') {
        Some(parts) => parts,
        None => (text, &[]),
    }
}

pub fn is_blank_byte(byte: u8) -> bool
    ensures { result ≡ is_blank byte }
{
    byte == b' ' || byte == b'\t'
}

/// A line without the blanks before it.
pub fn trim_start(mut line: &[u8]) -> &[u8]
    ensures { result.now ≡ trimmed_start line.entry.now }
{
    while let [first, rest @ ..] = line {
        if !is_blank_byte(*first) {
            return line;
        }
        line = rest;
    }
    line
}

/// A line without the blanks behind it.
pub fn trim_end(mut line: &[u8]) -> &[u8]
    ensures { result.now ≡ trimmed_end line.entry.now }
{
    while let [rest @ .., last] = line {
        if !is_blank_byte(*last) {
            return line;
        }
        line = rest;
    }
    line
}
