//! The answer to a command that a replica is asked, from its own rows.

ghost use Rattle.std.specs.Prelude.{◌≡◌, List, [], ◌∷◌, map, false, IfOk};
ghost use Rattle.depot_rows.specs.table_changes.Changed.{rows_of};
ghost use Rattle.command_core.specs.Outcomes.{IsFormedBy};
ghost use Rattle.depot_rows.specs.depot_model.About.{about};
ghost use Rattle.depot_rows.specs.depot_model.Deeds.{Deed};
ghost use Rattle.depot_rows.specs.depot_model.Refusals.{refusal_row};
ghost use Rattle.depot_rows.specs.depot_model.declared.refusal.Refusal.TheVariants as refusals;
ghost use Rattle.depot_rows.specs.Standing.{Stand};
ghost use Rattle.depot_runs.specs.Replica.{replica_reply};
ghost use Rattle.depot_rows.specs.depot_model.Commands.{step};
ghost use Rattle.replica_replies.specs.Prints.{prints};
ghost use Rattle.reply_rows.specs.Made.{waiting};

use crate::refusing::is_turned_away;
use command_core::{Outcome, evaluate};
use depot_rows::model::{Command, Reply, Request};
use depot_rows::paths::Sequence;
use depot_rows::tables::Tables;
use replica_pull::Replica;
use reply_rows::read_only_row;
use std::alloc::{AllocError, Global};

/// The reply to a command that a replica turns away.
fn turned_away(alloc: Global, command: &Command) -> Result<Reply, AllocError>
    ensures { IfOk result (λ reply. reply.rows ≡ refusal_row (refusals.ReadOnly (about command.now).word) ∷ []) }
{
    let row = read_only_row(alloc, command.word().as_bytes())?;
    let mut rows = Sequence::new(alloc);
    rows.push(row)?;
    Ok(Reply { rows })
}

/// The reply that these rows give.
fn evaluated(alloc: Global, tables: &Tables, request: &Request) -> Result<Reply, AllocError>
    ensures { IfOk result (λ reply. (d : List Deed) → Stand (rows_of tables.now) d → IsFormedBy request.now →
        reply.rows ≡ map waiting (step d request.now).rows) }
{
    let Outcome {
        reply,
        changes,
        stores,
        reads,
    } = evaluate(alloc, tables, request)?;
    drop(changes);
    drop(stores);
    drop(reads);
    Ok(reply)
}

/// What a replica answers to a command other than `pull`, from its own rows, where a row that lacks its content has an
/// empty one: it turns away each command that would change a row. Nothing is changed. The one error is want of memory.
pub(crate) fn waiting_reply(
    alloc: Global,
    replica: &Replica,
    request: &Request,
) -> Result<Reply, AllocError>
    ensures { IfOk result (λ reply. (d : List Deed) → Stand (rows_of replica.now.tables) d → IsFormedBy request.now →
        reply.rows ≡ map waiting (replica_reply d request.now)) }
{
    match &request.command {
        Ok(command) => {
            if is_turned_away(command) {
                return turned_away(alloc, command);
            }
            evaluated(alloc, replica.tables(), request)
        }
        Err(_) => evaluated(alloc, replica.tables(), request),
    }
}

/// What a replica answers to a command other than `pull` and `print`, from its own rows: it turns away each that would
/// change a row. Nothing is changed. The one error is want of memory.
pub fn answer(alloc: Global, replica: &Replica, request: &Request) -> Result<Reply, AllocError>
    requires { prints request.now.command ≡ false }
    ensures { IfOk result (λ reply. (d : List Deed) → Stand (rows_of replica.now.tables) d → IsFormedBy request.now →
        reply.rows ≡ replica_reply d request.now) }
{
    waiting_reply(alloc, replica, request)
}
