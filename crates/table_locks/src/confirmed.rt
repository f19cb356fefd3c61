//! What a command has once its set is confirmed.
ghost use Rattle.std.specs.Prelude.{◌≡◌};

use locked_tables::{HeldTable, Naming};
use table_changes::tables::Tables;

/// The tables whose locks a command holds, which know the whole order, and the version of each
/// table of its set after it. Both stay so until a place changes a table or touches the lane of one.
#[derive(Drop)]
pub struct Confirmed<'a, N: Naming> {
    pub(crate) held: Vec<HeldTable<'a, N>>,
    pub(crate) tables: Tables,
}

impl<'a, N: Naming> Confirmed<'a, N> {
    /// The tables over which the command is evaluated.
    pub fn tables(&self) -> &Tables
        ensures { result.now ≡ self.now.tables }
    {
        &self.tables
    }
}
