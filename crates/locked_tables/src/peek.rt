//! A table that was seen under the lock of the order.
ghost use Rattle.std.specs.Prelude.{◌≡◌, length};
ghost use Rattle.locked_tables.specs.Taken.{rows_after};

use crate::naming::Naming;
use crate::taken::Taken;
use depot_model::records::TableId;
use order_words::Note;
use std::marker::{Model, PhantomData};
use table_changes::tables::Version;

/// What the holder of the lock showed: the version, how many places the order had, and a note of
/// them. Contracts see which table it is, and the beginning of the order for which the version
/// stands.
#[derive(Drop)]
pub struct Peek<N: Naming> {
    pub(crate) note: Note<Taken>,
    pub(crate) places: u64,
    pub(crate) version: Version,
    pub(crate) of: PhantomData<N>,
}

impl<N: Naming> Model for Peek<N> {
    ghost use Rattle.std.specs.Prelude.{◌≡◌, length};
    ghost use Rattle.locked_tables.specs.Known.{TableKnown};
    ghost use Rattle.locked_tables.specs.Taken.{rows_after};

    ghost Value = { TableKnown };

    ghost view = { λ p. record { table = p.version.table; list = p.note.list } };

    ghost invariant = { λ p. (p.note.run ≡ N.run) × (p.places ≡ length p.note.list) × (p.version.rows ≡ rows_after N.rows p.note.list p.version.table) };
}

impl<N: Naming> Peek<N> {
    /// What was seen.
    pub(crate) fn of(note: Note<Taken>, places: u64, version: Version) -> Peek<N>
        requires run { note.run ≡ N.run }
        requires places { places ≡ length note.list }
        requires rows { version.rows ≡ rows_after N.rows note.list version.table }
        ensures { result ≡ record { table = version.table; list = note.list } }
    {
        Peek {
            note,
            places,
            version,
            of: PhantomData,
        }
    }

    /// Which table it is.
    pub fn table(&self) -> TableId
        ensures { result ≡ self.now.table }
    {
        self.version.table()
    }

    /// The version.
    pub fn version(&self) -> &Version
        ensures { result.now ≡ record { table = self.now.table; rows = rows_after N.rows self.now.list self.now.table } }
    {
        &self.version
    }
}
