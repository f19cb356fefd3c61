//! The mode `checkpoint`.

ghost use Rattle.std.specs.Prelude.{◌≡◌, ◌∷◌, [], true, false, IfOk};
ghost use Rattle.depot_checkpoint.specs.declared.fault.TakingFault.TheVariants as faults;
ghost use Rattle.end_lines.specs.Causes.{status_of};
ghost use Rattle.end_lines.specs.Lines.{cause_line, generation_line};
ghost use Rattle.end_lines.specs.Telling.{OutGot};
ghost use Rattle.p4_server.specs.Checkpoint.{Checkpoints, IsLine};
ghost use Rattle.p4_server.specs.Telling.{IsUnrun};

use crate::ended::Ended;
use crate::opening::end_unopened;
use crate::telling::ended_alone;
use depot_checkpoint::{TakingFault, take_checkpoint};
use depot_rows::model::Place;
use depot_rows::paths::Sequence;
use end_lines::{Cause, give_cause, give_generation, status_code};
use outside_api::{Clock, Disk, Sink};
use recovery::{Opened, open_files};
use std::alloc::{AllocError, Global};

/// The order that has the checkpoint alone, as the first command of party 0.
fn order_at(alloc: Global, moment: u64, fault: bool) -> Result<Sequence<Place>, AllocError>
    ensures { IfOk result (λ order. order ≡ record { party = 0; number = 1; moment = moment; fault = fault } ∷ []) }
{
    let mut order = Sequence::new(alloc);
    order.push(Place {
        party: 0,
        number: 1,
        moment,
        fault,
    })?;
    Ok(order)
}

/// Both orders that a checkpoint may have: without a fault, and with one. They are made before the disk is called.
fn orders_at(alloc: Global, moment: u64) -> Result<(Sequence<Place>, Sequence<Place>), AllocError>
    ensures whole { IfOk result (λ orders. orders.0 ≡ record { party = 0; number = 1; moment = moment; fault = false } ∷ []) }
    ensures failed { IfOk result (λ orders. orders.1 ≡ record { party = 0; number = 1; moment = moment; fault = true } ∷ []) }
{
    let whole = order_at(alloc, moment, false)?;
    let failed = order_at(alloc, moment, true)?;
    Ok((whole, failed))
}

/// The end of a run that has this order, and no party.
fn ended_placed<D, S, K>(
    alloc: Global,
    cause: Cause,
    order: Sequence<Place>,
    journal: D,
    archive: D,
) -> Ended<D, S, K>
    ensures { result ≡ record {
      status = status_of cause;
      cause = cause;
      order = order;
      parties = [];
      sources = [];
      journal = journal;
      archive = archive;
    } }
{
    Ended {
        status: status_code(cause),
        cause,
        order,
        parties: Sequence::new(alloc),
        sources: Sequence::new(alloc),
        journal,
        archive,
    }
}

/// The end of a checkpoint that began a generation, or for which there is none, told by its line.
fn end_taken<D, S, K: Sink>(
    alloc: Global,
    begun: Option<u32>,
    order: Sequence<Place>,
    out: &mut K,
    journal: D,
    archive: D,
) -> Ended<D, S, K>
    ensures order { result.order ≡ order }
    ensures parties { result.parties ≡ [] }
    ensures sources { result.sources ≡ [] }
    ensures line { IsLine K.says out.old out.new result (generation_line begun) }
    ensures status { result.status ≡ status_of result.cause }
    ensures journal { result.journal ≡ journal }
    ensures archive { result.archive ≡ archive }
{
    match give_generation(out, begun) {
        Ok(()) => ended_placed(alloc, Cause::Done, order, journal, archive),
        Err(_) => ended_placed(alloc, Cause::Fault, order, journal, archive),
    }
}

/// The end of a checkpoint that wasn't taken. Where the disk has failed meanwhile it has this order, and is told by the
/// line of a fault alone; where there was no memory nothing was done.
fn end_untaken<D, S, K: Sink>(
    alloc: Global,
    fault: TakingFault,
    failed: Sequence<Place>,
    out: &mut K,
    journal: D,
    archive: D,
) -> Ended<D, S, K>
    ensures order { fault ≡ faults.DiskFault → result.order ≡ failed }
    ensures parties { result.parties ≡ [] }
    ensures sources { result.sources ≡ [] }
    ensures cause { fault ≡ faults.DiskFault → result.cause ≡ Cause.Fault }
    ensures line { fault ≡ faults.DiskFault →
        OutGot (K.says.given out.old) (K.says.given out.new) (K.says.faults out.old) (K.says.faults out.new)
        (cause_line Cause.Fault) }
    ensures memory { fault ≡ faults.Memory → result.cause ≡ Cause.Memory }
    ensures unrun { fault ≡ faults.Memory → IsUnrun result }
    ensures status { result.status ≡ status_of result.cause }
    ensures journal { result.journal ≡ journal }
    ensures archive { result.archive ≡ archive }
{
    match fault {
        TakingFault::DiskFault => {
            let _ = give_cause(out, Cause::Fault);
            ended_placed(alloc, Cause::Fault, failed, journal, archive)
        }
        TakingFault::Memory => {
            drop(failed);
            ended_alone(alloc, Cause::Memory, journal, archive)
        }
    }
}

/// Begins the next generation of the files, as party 0 with its first command, and asks for no rights. Where the disk
/// fails meanwhile the place is a fault.
pub fn checkpoint<D: Disk, S, K: Sink, C: Clock>(
    alloc: Global,
    journal: D,
    archive: D,
    out: &mut K,
    clock: &C,
) -> Ended<D, S, K>
    ensures checkpoints { Checkpoints D.says K.says (C.says.may_give clock.now)
        (record { journal = journal; archive = archive; out = out.old }) (record { out = out.new; ended = result }) }
    ensures status { result.status ≡ status_of result.cause }
{
    let Opened {
        tables,
        journal,
        archive,
    } = match open_files(alloc, journal, archive) {
        Ok(opened) => opened,
        Err(found) => return end_unopened(alloc, found, out),
    };
    let mut journal = journal;
    let (whole, failed) = match orders_at(alloc, clock.now()) {
        Ok(orders) => orders,
        Err(AllocError) => {
            drop(tables);
            return ended_alone(
                alloc,
                Cause::Memory,
                journal.into_disk(),
                archive.into_disk(),
            );
        }
    };
    let taken = take_checkpoint(alloc, &tables, &mut journal);
    drop(tables);
    let journal = journal.into_disk();
    let archive = archive.into_disk();
    match taken {
        Ok(begun) => end_taken(alloc, begun, whole, out, journal, archive),
        Err(fault) => end_untaken(alloc, fault, failed, out, journal, archive),
    }
}
