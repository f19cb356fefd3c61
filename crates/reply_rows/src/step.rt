//! What a command does.

ghost use Rattle.std.specs.Prelude.{◌≡◌, [], ◌∷◌, ◌++◌, IfOk, OnOk};
ghost use Rattle.reply_rows.specs.Made.{told};

use crate::content::RowContent;
use deed_list::{Deeds, append};
use depot_rows::model::Row;
use depot_rows::paths::{Sequence, Text};
use std::alloc::{AllocError, Global};

/// What a command does.
#[derive(Drop)]
pub struct Step {
    /// What it would do in the depot, the first first.
    pub deeds: Deeds,
    /// What it is answered. A row that lacks its content has an empty one.
    pub rows: Sequence<Row>,
    /// The contents that it stores, which are put into the archive one after another from the archive's end.
    pub stores: Sequence<Text>,
    /// Where the contents come from that its rows lack, in the order of the rows.
    pub reads: Sequence<RowContent>,
}

impl Step {
    /// The step that does nothing, which takes no memory.
    pub fn new(alloc: Global) -> Step
        ensures { result ≡ told [] }
    {
        Step {
            deeds: Deeds::new(alloc),
            rows: Sequence::new(alloc),
            stores: Sequence::new(alloc),
            reads: Sequence::new(alloc),
        }
    }

    /// The step of a row alone.
    pub fn tells(alloc: Global, row: Row) -> Result<Step, AllocError>
        ensures { IfOk result (λ step. step ≡ told (row ∷ [])) }
    {
        let mut step = Step::new(alloc);
        step.rows.push(row)?;
        Ok(step)
    }

    /// Does further what another step does.
    pub fn add(&mut self, more: Step) -> Result<(), AllocError>
        ensures deeds { OnOk result (self.new.deeds ≡ self.old.deeds ++ more.deeds) }
        ensures rows { OnOk result (self.new.rows ≡ self.old.rows ++ more.rows) }
        ensures stores { OnOk result (self.new.stores ≡ self.old.stores ++ more.stores) }
        ensures reads { OnOk result (self.new.reads ≡ self.old.reads ++ more.reads) }
    {
        let Step {
            deeds,
            rows,
            stores,
            reads,
        } = more;
        self.deeds.append(deeds)?;
        append(&mut self.rows, rows)?;
        append(&mut self.stores, stores)?;
        append(&mut self.reads, reads)
    }
}
