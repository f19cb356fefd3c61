//! Copies.

ghost use Rattle.std.specs.Prelude.{◌≡◌, IfOk};

use depot_rows::paths::{DepotPath, Name};
use std::alloc::AllocError;

/// A copy of a name.
pub fn own_name(name: &Name) -> Result<Name, AllocError>
    ensures { IfOk result (λ own. own ≡ name.now) }
{
    name.clone()
}

/// A copy of a path.
pub fn own_path(path: &DepotPath) -> Result<DepotPath, AllocError>
    ensures { IfOk result (λ own. own ≡ path.now) }
{
    path.clone()
}
