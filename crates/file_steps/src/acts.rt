//! What is done with a file.

ghost use Rattle.std.specs.Prelude.{◌≡◌, ℕ, List, filter, IfOk};
ghost use Rattle.depot_rows.specs.table_changes.Changed.{AllRows, rows_of};
ghost use Rattle.depot_rows.specs.depot_model.declared.command.FileArgument.{FileArgument as Argument};
ghost use Rattle.depot_rows.specs.depot_model.Deeds.{Deed};
ghost use Rattle.depot_rows.specs.depot_model.Step.{Step as ModelStep, after};
ghost use Rattle.reply_rows.specs.Made.{IsMade};

use crate::loops::named_by;
use crate::sets::FileSet;
use depot_rows::model::FileArgument;
use depot_rows::paths::{DepotPath, Sequence};
use depot_rows::tables::Tables;
use reply_rows::Step;
use std::alloc::{AllocError, Global};

/// What a command does with a file that an argument names. It reads the tables alone of which `reads` speaks; where
/// they have the rows of a depot, it does what the model says of that depot, and its deeds may follow those of the
/// files before. The one error is want of memory.
pub trait FileAct {
    /// Whether rows are those of a depot, as far as the command reads them for a file.
    ghost reads: { Self → AllRows → List Deed → Type 0 };

    /// What is done with a file that an argument names.
    ghost acts: { Self → List Deed → Argument → List ℕ → ModelStep };

    /// Whether a depot may be the first one after what was done with files.
    ghost is_later: { Self → List Deed → List Deed → Type 0 };

    /// What is done with a file that an argument names.
    fn act(
        &self,
        alloc: Global,
        tables: &Tables,
        argument: &FileArgument,
        path: &DepotPath,
    ) -> Result<Step, AllocError>
        ensures { IfOk result (λ step. (d e : List Deed) → reads self.now (rows_of tables.now) d →
            is_later self.now d e →
            IsMade (rows_of tables.now) d e (acts self.now d argument.now path.now) step) };

    ghost first: { (act : Self) (d : List Deed) → is_later act d d };

    ghost next: { (act : Self) (d e : List Deed) (argument : Argument) (path : List ℕ) → is_later act d e → is_later act d (after e (acts act d argument path).deeds) };
}

/// What a command does with the files that its arguments name, one after another, where it keeps what it read: it finds
/// the files of a set itself, so that it may keep what it sees of them, and goes on from what it read for the file
/// before. It reads the tables alone of which `stands` speaks. The one error is want of memory.
pub trait WalkAct<'t, S: FileSet> {
    /// Whether what it keeps is of a set and an argument, and it has come from a depot, of which these are the rows
    /// that it reads, to another one, which what was done with files made of it.
    ghost stands: { Self → S → Argument → AllRows → List Deed → List Deed → Type 0 };

    /// What is done with a file that an argument names.
    ghost acts: { Self → List Deed → Argument → List ℕ → ModelStep };

    /// The files of the set that an argument names, in their order. What it keeps is of that argument from now on.
    fn find(
        &mut self,
        alloc: Global,
        tables: &'t Tables,
        set: &S,
        argument: &FileArgument,
    ) -> Result<Sequence<DepotPath>, AllocError>
        ensures paths { IfOk result (λ paths. (d : List Deed) → S.reads set.now (rows_of tables.now) d →
            paths ≡ filter (S.names set.now d argument.now) (S.files set.now d)) }
        ensures comes { IfOk result (λ _. (before : Argument) (d e : List Deed) →
            stands self.old set.now before (rows_of tables.now) d e →
            stands self.new set.now argument.now (rows_of tables.now) d e) }
        ensures same { IfOk result (λ _. acts self.new ≡ acts self.old) };

    /// What is done with a file that an argument names.
    fn act(
        &mut self,
        alloc: Global,
        tables: &'t Tables,
        argument: &FileArgument,
        path: &DepotPath,
    ) -> Result<Step, AllocError>
        ensures step { IfOk result (λ step. (set : S) (d e : List Deed) →
            stands self.old set argument.now (rows_of tables.now) d e →
            IsMade (rows_of tables.now) d e (acts self.old d argument.now path.now) step) }
        ensures comes { IfOk result (λ _. (set : S) (d e : List Deed) →
            stands self.old set argument.now (rows_of tables.now) d e →
            stands self.new set argument.now (rows_of tables.now) d (after e (acts self.old d argument.now path.now).deeds)) }
        ensures same { IfOk result (λ _. acts self.new ≡ acts self.old) };
}

/// What keeps no place, as what keeps one.
#[derive(Drop)]
pub(crate) struct Placeless<'a, A> {
    pub act: &'a A,
}

impl<'t, 'a, S: FileSet, A: FileAct> WalkAct<'t, S> for Placeless<'a, A> {
    ghost stands = { λ it set argument rows d e. A.reads it.act.now rows d × A.is_later it.act.now d e };

    ghost acts = { λ it d argument path. A.acts it.act.now d argument path };

    fn find(
        &mut self,
        alloc: Global,
        tables: &'t Tables,
        set: &S,
        argument: &FileArgument,
    ) -> Result<Sequence<DepotPath>, AllocError> {
        let named = named_by(alloc, tables, set, argument)?;
        Ok(named)
    }

    fn act(
        &mut self,
        alloc: Global,
        tables: &'t Tables,
        argument: &FileArgument,
        path: &DepotPath,
    ) -> Result<Step, AllocError> {
        let step = self.act.act(alloc, tables, argument, path)?;
        Ok(step)
    }
}
