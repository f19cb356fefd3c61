//! All parties of a run.

use crate::party::Party;
use depot_rows::tables::Tables;

/// The parties of a run, counted from 0, and the tables of its depot after the places so far.
pub struct LockCore {
    pub(crate) tables: Tables,
    pub(crate) parties: Vec<Party>,
}

impl Drop for LockCore {
    fn drop(self) {
        let LockCore {
            tables: _,
            parties: _,
        } = self;
    }
}
