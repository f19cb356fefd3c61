//! The input of a request.

ghost use Rattle.std.specs.Prelude.{◌≡◌, [], unwrap_or};

use depot_rows::model::Request;

/// The input block of a request, without bytes where it has none.
pub(crate) fn input_of(request: &Request) -> &[u8]
    ensures { result.now ≡ unwrap_or request.now.input [] }
{
    match &request.input {
        Some(input) => input.as_bytes(),
        None => &[],
    }
}
