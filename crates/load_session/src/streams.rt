//! What the script of a load comes from, and what its replies go to.

ghost use Rattle.std.specs.Prelude.{Some, None};

use outside_api::{Failed, Sink, Source};

/// The bytes of a script.
#[derive(Drop)]
pub(crate) struct ScriptBytes<'a> {
    pub(crate) rest: &'a [u8],
}

impl Source for ScriptBytes<'_> {
    ghost says = { record { left = λ source. Some source.rest.now; faults = λ source. 0 } };

    fn take(&mut self, buffer: &mut [u8]) -> Result<usize, Failed> {
        let count = self.rest.len().min(buffer.len());
        buffer[..count].copy_from_slice(&self.rest[..count]);
        self.rest = &self.rest[count..];
        Ok(count)
    }
}

/// Keeps no reply.
#[derive(Clone, Copy)]
pub(crate) struct NoReplies;

impl Sink for NoReplies {
    ghost says = { record { given = λ sink. None; faults = λ sink. 0 } };

    fn give(&mut self, piece: &[u8]) -> Result<usize, Failed> {
        Ok(piece.len())
    }
}
