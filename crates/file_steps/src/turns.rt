//! Files one after another, each over the depot that those before it left.

ghost use Rattle.std.specs.Prelude.{◌≡◌, ℕ, List, IfOk, OnOk};
ghost use Rattle.depot_rows.specs.table_changes.Changed.{AllRows, rows_of};
ghost use Rattle.depot_rows.specs.depot_model.Deeds.{Deed};
ghost use Rattle.depot_rows.specs.depot_model.Step.{Step as ModelStep, after, both, in_turn as in_turn_in};
ghost use Rattle.reply_rows.specs.Made.{IsMade};
ghost use Rattle.file_steps.specs.Goes.{Goes};

use depot_rows::paths::DepotPath;
use depot_rows::tables::Tables;
use reply_rows::Step;
use std::alloc::{AllocError, Global};

/// What a command does with files one after another, where it keeps what it did with those before. The tables stay
/// those of the depot before all of them. The one error is want of memory.
pub trait TurnAct {
    /// Whether it has come from a depot, of which these are the rows that it reads, to another one.
    ghost stands: { Self → AllRows → List Deed → List Deed → Type 0 };

    /// What is done with a file, by the depot before all of them and the one that those before it left.
    ghost acts: { Self → List Deed → List Deed → List ℕ → ModelStep };

    /// What is done with the next file.
    fn act(&mut self, alloc: Global, tables: &Tables, path: &DepotPath) -> Result<Step, AllocError>
        ensures step { IfOk result (λ step. (d e : List Deed) → stands self.old (rows_of tables.now) d e →
            IsMade (rows_of tables.now) d e (acts self.old d e path.now) step) }
        ensures comes { IfOk result (λ _. (d e : List Deed) → stands self.old (rows_of tables.now) d e →
            stands self.new (rows_of tables.now) d (after e (acts self.old d e path.now).deeds)) }
        ensures same { IfOk result (λ _. acts self.new ≡ acts self.old) };
}

/// Adds what is done with the next file.
fn add_turn<A: TurnAct>(
    alloc: Global,
    tables: &Tables,
    act: &mut A,
    step: &mut Step,
    path: &DepotPath,
) -> Result<(), AllocError>
    ensures step { OnOk result ((d e : List Deed) (model : ModelStep) →
        Goes (A.stands act.old (rows_of tables.now) d) (rows_of tables.now) d e model step.old →
        Goes (A.stands act.new (rows_of tables.now) d) (rows_of tables.now) d e (both model (A.acts act.old d (after e model.deeds) path.now)) step.new) }
    ensures same { OnOk result (A.acts act.new ≡ A.acts act.old) }
{
    let more = act.act(alloc, tables, path)?;
    step.add(more)?;
    Ok(())
}

/// What a command does with files one after another, each over the depot with the deeds of those before it. The one
/// error is want of memory.
pub fn in_turn<A: TurnAct>(
    alloc: Global,
    tables: &Tables,
    act: &mut A,
    paths: &[DepotPath],
) -> Result<Step, AllocError>
    ensures { IfOk result (λ step. (d e : List Deed) → A.stands act.old (rows_of tables.now) d e →
        IsMade (rows_of tables.now) d e (in_turn_in (A.acts act.old d) e paths.now) step) }
{
    let mut step = Step::new(alloc);
    let mut rest = paths;
    while let [path, later @ ..] = rest {
        add_turn(alloc, tables, act, &mut step, path)?;
        rest = later;
    }
    Ok(step)
}
