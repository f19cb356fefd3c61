//! With which texts the files begin that a view puts below a client path.

ghost use Rattle.std.specs.Prelude.{◌≡◌, IfOk};
ghost use Rattle.view_map.specs.Beginnings.{ends_with_first as ends_test, beginning_below};

use crate::line::ViewLine;
use depot_path::{Piece, Text};
use std::alloc::{AllocError, Global};

/// Whether nothing follows the first specifier.
fn ends_with_first(pieces: &[Piece]) -> bool
    ensures { result ≡ ends_test pieces.now }
{
    let mut rest = pieces;
    while let [Piece::Byte(_), after @ ..] = rest {
        rest = after;
    }
    rest.len() == 1
}

impl ViewLine {
    /// With what the files begin, as they are printed, that the line takes to client paths that begin with the start,
    /// unless there is none.
    pub(crate) fn beginning(&self, alloc: Global, start: &[u8]) -> Result<Option<Text>, AllocError>
        ensures { IfOk result (λ text. text ≡ beginning_below start.now self.now) }
    {
        if self.is_exclusion() {
            return Ok(None);
        }
        let client = self.client.beginning(alloc)?;
        let above = client.as_bytes().starts_with(start);
        if !above && !start.starts_with(client.as_bytes()) {
            return Ok(None);
        }
        let mut text = self.depot.beginning(alloc)?;
        if !above && ends_with_first(self.client.pieces()) {
            text.append(&start[client.len()..])?;
        }
        Ok(Some(text))
    }
}
