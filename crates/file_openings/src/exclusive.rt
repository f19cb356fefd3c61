//! Files that one client alone may have open.

ghost use Rattle.std.specs.Prelude.{◌≡◌};
ghost use Rattle.depot_rows.specs.depot_model.Steps.Opening as model;
ghost use Rattle.depot_rows.specs.depot_model.Types.{modifiers as modifiers_of};
ghost use Rattle.file_openings.specs.Plus.{behind_plus as text_behind};

/// What stands behind the first `+` of a text, nothing where it has none.
fn behind_plus(text: &[u8]) -> &[u8]
    ensures { result.now ≡ text_behind text.now }
{
    let mut rest = text;
    while let [byte, after @ ..] = rest {
        if *byte == b'+' {
            return after;
        }
        rest = after;
    }
    rest
}

/// The modifiers of a type.
fn modifiers(file_type: &[u8]) -> &[u8]
    ensures { result.now ≡ modifiers_of file_type.now }
{
    behind_plus(file_type)
}

/// Whether a file of a type may be open at one client alone: the modifier `l` (Command-Line Reference, "File types").
pub fn is_exclusive(file_type: &[u8]) -> bool
    ensures { result ≡ model.is_exclusive file_type.now }
{
    modifiers(file_type).iter().any(|byte| *byte == b'l')
}
