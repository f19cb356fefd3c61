//! An opening with another base and another source.

ghost use Rattle.std.specs.Prelude.{◌≡◌, IfOk};

use depot_rows::{Opening, Owing, Source};
use opening_parts::own_path;
use std::alloc::AllocError;

/// Gives an opening a base and a source.
pub(crate) fn rebase(opening: &mut Opening, base: u32, source: Option<Source>)
    ensures { opening.new ≡ record opening.old { base = base; source = source } }
{
    opening.base = base;
    opening.source = source;
}

/// The last revision of a resolve. The one error is want of memory.
pub(crate) fn source_of(owing: &Owing) -> Result<Source, AllocError>
    ensures { IfOk result (λ source. source ≡ record { path = owing.now.from; rev = owing.now.last }) }
{
    let path = own_path(&owing.from)?;
    Ok(Source {
        path,
        rev: owing.last,
    })
}
