//! Files of which arguments name some.

ghost use Rattle.std.specs.Prelude.{◌≡◌, ℕ, Bool, List, filter, IfOk};
ghost use Rattle.depot_rows.specs.table_changes.Changed.{AllRows, rows_of};
ghost use Rattle.depot_rows.specs.depot_model.declared.command.FileArgument.{FileArgument as Argument};
ghost use Rattle.depot_rows.specs.depot_model.declared.reply.Row.{Row as ReplyRow};
ghost use Rattle.depot_rows.specs.depot_model.Deeds.{Deed};
ghost use Rattle.depot_rows.specs.depot_model.Step.{tells};
ghost use Rattle.reply_rows.specs.Made.{IsMade};

use depot_rows::model::FileArgument;
use depot_rows::paths::{DepotPath, Sequence};
use depot_rows::tables::Tables;
use reply_rows::Step;
use std::alloc::{AllocError, Global};

/// Files of which arguments name some, as those that a client has. Each call is of the tables alone that the set reads;
/// where they have the rows of a depot, it gives what the model says of that depot. The one error is want of memory.
pub trait FileSet {
    /// Whether rows are those of a depot, as far as the set reads them.
    ghost reads: { Self → AllRows → List Deed → Type 0 };

    /// The files of a depot among which arguments name some, in path order, each once.
    ghost files: { Self → List Deed → List (List ℕ) };

    /// Whether an argument names a file.
    ghost names: { Self → List Deed → Argument → List ℕ → Bool };

    /// The rows for an argument that names no file.
    ghost rows_without: { Self → Argument → List ReplyRow };

    /// Among the files, in their order, at least those that an argument names.
    fn candidates(
        &self,
        alloc: Global,
        tables: &Tables,
        argument: &FileArgument,
    ) -> Result<Sequence<DepotPath>, AllocError>
        ensures { IfOk result (λ paths. (d : List Deed) → reads self.now (rows_of tables.now) d →
            filter (names self.now d argument.now) paths ≡ filter (names self.now d argument.now) (files self.now d)) };

    /// Whether an argument names one of the files.
    fn is_named(
        &self,
        alloc: Global,
        tables: &Tables,
        argument: &FileArgument,
        path: &DepotPath,
    ) -> Result<bool, AllocError>
        ensures { IfOk result (λ named. (d : List Deed) → reads self.now (rows_of tables.now) d →
            named ≡ names self.now d argument.now path.now) };

    /// What is done for an argument that names no file: it gives rows alone.
    fn missing(&self, alloc: Global, argument: &FileArgument) -> Result<Step, AllocError>
        ensures { IfOk result (λ step. (all : AllRows) (d e : List Deed) →
            IsMade all d e (tells (rows_without self.now argument.now)) step) };
}
