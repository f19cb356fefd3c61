//! What a replica keeps.

ghost use Rattle.std.specs.Prelude.{◌≤◌, ◌<◌, ◌+◌, ◌*◌, ◌^◌};

use depot_rows::model::Filter;
use depot_rows::paths::Text;
use depot_rows::tables::Tables;

/// A replica of a depot, which has the rows of the files inside a filter alone. It follows the journal of
/// its master from generation 0 on.
pub struct Replica {
    pub(crate) filter: Filter,
    pub(crate) tables: Tables,
    pub(crate) generation: u32,
    /// How many bytes of the generation's text were taken.
    pub(crate) at: u64,
    /// The bytes of it behind the last whole group.
    pub(crate) rest: Text,
    /// The number of the next group of the generation.
    pub(crate) number: u64,
    /// How many bytes were taken of all generations.
    pub(crate) taken: u64,
    /// How many changes were taken: a group is one, and a generation that is passed.
    pub(crate) changes: u64,
    ghost rest_within: { Rattle.std.specs.Prelude.length rest ≤ at },
    ghost at_within: { at ≤ taken },
    ghost short: { taken < 2 ^ 63 },
    ghost numbered: { 5 * number + Rattle.std.specs.Prelude.length rest ≤ 5 + at },
    ghost counted: { changes + Rattle.std.specs.Prelude.length rest ≤ taken + generation },
    ghost last: { generation ≤ 4095 },
}

impl Drop for Replica {
    fn drop(self) {
        let Replica {
            filter: _,
            tables: _,
            generation: _,
            at: _,
            rest: _,
            number: _,
            taken: _,
            changes: _,
        } = self;
    }
}
