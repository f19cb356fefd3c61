//! The command that a party has at hand.

use command_needs::{Needs, TableSet};
use depot_rows::model::Request;
use depot_rows::tables::Tables;
use lock_machine::Stage;

/// What a commit puts in.
#[derive(Drop)]
pub struct Room {
    /// The tables after it.
    pub(crate) tables: Tables,
    /// The tables that it changes.
    pub(crate) changed: TableSet,
}

/// The command that a party has at hand.
#[derive(Drop)]
pub struct Work {
    pub(crate) request: Request,
    /// Its set.
    pub(crate) needs: Needs,
    /// How many locks of its set it has taken, in their order.
    pub(crate) done: usize,
    pub(crate) stage: Stage,
    /// Whether this is its second attempt, which locks all of its set.
    pub(crate) second: bool,
    /// Whether a table that it looked at was changed since.
    pub(crate) stale: bool,
    /// What its commit puts in, once its reply is known.
    pub(crate) room: Option<Room>,
}
