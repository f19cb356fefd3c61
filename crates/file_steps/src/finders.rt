//! Files that arguments spell.

ghost use Rattle.std.specs.Prelude.{◌≡◌, ℕ, List, true, IfOk};
ghost use Rattle.depot_rows.specs.table_changes.Changed.{AllRows, rows_of};
ghost use Rattle.depot_rows.specs.depot_model.declared.command.FileArgument.{FileArgument as Argument};
ghost use Rattle.depot_rows.specs.depot_model.declared.reply.Row.{Row as ReplyRow};
ghost use Rattle.depot_rows.specs.depot_model.Deeds.{Deed};
ghost use Rattle.depot_rows.specs.depot_model.Step.{tells};
ghost use Rattle.depot_rows.specs.depot_model.WellFormed.{spells_path};
ghost use Rattle.reply_rows.specs.Made.{IsMade};

use depot_rows::model::FileArgument;
use depot_rows::paths::{DepotPath, Sequence};
use depot_rows::tables::Tables;
use reply_rows::Step;
use std::alloc::{AllocError, Global};

/// Finds the files that arguments without wildcards spell, whether they are there or not, as those of `add` and
/// `where`. Each call is of the tables alone that the finder reads; where they have the rows of a depot, and the
/// argument spells a path, it gives what the model says of that depot. The one error is want of memory.
pub trait FileFinder {
    /// Whether rows are those of a depot, as far as the finder reads them.
    ghost reads: { Self → AllRows → List Deed → Type 0 };

    /// The files that an argument spells.
    ghost found: { Self → List Deed → Argument → List (List ℕ) };

    /// The rows for an argument that spells no file.
    ghost rows_without: { Self → Argument → List ReplyRow };

    /// The files that an argument spells.
    fn find(
        &self,
        alloc: Global,
        tables: &Tables,
        argument: &FileArgument,
    ) -> Result<Sequence<DepotPath>, AllocError>
        ensures { IfOk result (λ paths. (d : List Deed) → spells_path argument.now ≡ true →
            reads self.now (rows_of tables.now) d → paths ≡ found self.now d argument.now) };

    /// What is done for an argument that spells no file: it gives rows alone.
    fn missing(&self, alloc: Global, argument: &FileArgument) -> Result<Step, AllocError>
        ensures { IfOk result (λ step. (all : AllRows) (d e : List Deed) → spells_path argument.now ≡ true →
            IsMade all d e (tells (rows_without self.now argument.now)) step) };
}
