//! Files of clients.

ghost use Rattle.std.specs.Prelude.{◌≡◌, IfOk};

use depot_rows::Held;
use depot_rows::paths::{DepotPath, Name};
use std::alloc::AllocError;

/// A file of a client. The one error is want of memory.
pub fn held(client: &Name, path: &DepotPath) -> Result<Held, AllocError>
    ensures { IfOk result (λ held. held ≡ record { client = client.now; path = path.now }) }
{
    let client = client.clone()?;
    let path = path.clone()?;
    Ok(Held { client, path })
}
