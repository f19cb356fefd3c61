//! The paths that arguments spell.

ghost use Rattle.std.specs.Prelude.{◌≡◌, Some, None, IfOk, if◌then◌else◌};
ghost use Rattle.depot_rows.specs.depot_model.Steps.Adding.{spelled};
ghost use Rattle.depot_rows.specs.depot_model.WellFormed.{spells_path};

use depot_rows::model::FileArgument;
use depot_rows::paths::DepotPath;
use std::alloc::{AllocError, Global};

/// The path that an argument without wildcards spells, None exactly where it spells none. The one error is want of
/// memory.
pub fn spelled_path(alloc: Global, argument: &FileArgument) -> Result<Option<DepotPath>, AllocError>
    ensures { IfOk result (λ path. path ≡ (if spells_path argument.now then Some (spelled argument.now) else None)) }
{
    let text = argument.spec.pattern.filled(alloc, &[])?;
    let path = DepotPath::from_text(text);
    Ok(path)
}
