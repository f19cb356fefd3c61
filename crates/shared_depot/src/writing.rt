//! What a command has made under the lock of the journal before it is committed.
use depot_commit::Told;
use depot_rows::model::Request;
use depot_rows::tables::Tables;
use locked_tables::{HeldTable, Naming};

/// A command that is to be committed, with the tables that it holds, and what wants memory of what
/// follows, but for the commit itself.
#[derive(Drop)]
pub(crate) struct Writing<'a, N: Naming> {
    /// The held tables, with the versions that are to follow.
    pub(crate) held: Vec<HeldTable<'a, N>>,
    /// All tables after the changes.
    pub(crate) after: Tables,
    /// The same once more, to be shown behind the lock of the order.
    pub(crate) shown: Tables,
    /// What it is answered and does.
    pub(crate) told: Told,
    pub(crate) request: Request,
}
