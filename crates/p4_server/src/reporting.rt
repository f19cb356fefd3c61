//! What is told of parties that were run.

ghost use Rattle.std.specs.Prelude.{◌≡◌, ◌≤◌, ◌⊎◌, length, IfOk};
ghost use Rattle.outside_api.specs.Count.{HasRisen};
ghost use Rattle.outside_api.specs.Told.{extended};
ghost use Rattle.wire_text.specs.Giving.{GotFront};
ghost use Rattle.end_lines.specs.Causes.{status_of};
ghost use Rattle.p4_server.specs.Ends.{ends_cause, ended_parties};
ghost use Rattle.p4_server.specs.Lines.{run_lines};
ghost use Rattle.p4_server.specs.Parties.{CanBeTold, parties_of};
ghost use Rattle.p4_server.specs.Runs.{unrun_cause};
ghost use Rattle.p4_server.specs.Telling.{IsReport, IsUntold};

use crate::ended::{Ended, PartyEnd, all_ends, cause_of};
use crate::lines::lines;
use crate::party::{NotRun, PartiesRun};
use depot_rows::model::Place;
use depot_rows::paths::{Sequence, Text};
use end_lines::{Cause, status_code};
use outside_api::Sink;
use session_loop::SessionRun;
use std::alloc::{AllocError, Global};
use wire_text::{ScriptEnd, give_all};

/// What is told of the parties, before `out` has it.
#[derive(Drop)]
struct Report<K> {
    text: Text,
    cause: Cause,
    parties: Sequence<PartyEnd<K>>,
}

/// The report of parties whose commands have these places.
fn report_of<K: Drop>(
    alloc: Global,
    order: &[Place],
    runs: &[SessionRun],
    ends: &[ScriptEnd],
    sinks: Vec<K>,
    lost: bool,
) -> Result<Report<K>, AllocError>
    requires runs { length runs.now ≡ length sinks.items }
    requires ends { length ends.now ≡ length sinks.items }
    requires few { length sinks.items ≤ 16 }
    ensures text { IfOk result (λ report. report.text ≡ run_lines order.now report.parties report.cause) }
    ensures cause { IfOk result (λ report. report.cause ≡ ends_cause order.now report.parties lost) }
    ensures parties { IfOk result (λ report. report.parties ≡ ended_parties 1 runs.now ends.now sinks.items) }
{
    let parties = all_ends(alloc, runs, ends, sinks)?;
    let cause = cause_of(order, parties.as_slice(), lost);
    let text = lines(alloc, order, parties.as_slice(), cause)?;
    Ok(Report {
        text,
        cause,
        parties,
    })
}

/// Gives the lines, and says why the program ends then.
fn give_lines<K: Sink>(out: &mut K, text: &[u8], cause: Cause) -> Cause
    ensures { ((result ≡ cause) × (K.says.given out.new ≡ extended (K.says.given out.old) text.now)) ⊎
        ((result ≡ Cause.Fault) × HasRisen (K.says.faults out.old) (K.says.faults out.new) ×
        GotFront (K.says.given out.old) (K.says.given out.new) text.now) }
{
    match give_all(out, text) {
        Ok(()) => cause,
        Err(_) => Cause::Fault,
    }
}

/// Tells the ends of the parties. Where there is no memory to tell them, their ends are lacking, and the order stays.
pub(crate) fn told<S: Drop, K: Sink + Drop, D>(
    alloc: Global,
    run: PartiesRun<S, K>,
    out: &mut K,
    journal: D,
    archive: D,
) -> Ended<D, S, K>
    requires { CanBeTold run }
    ensures order { result.order ≡ run.order }
    ensures told { IsReport K.says out.old out.new result run.order (parties_of run) run.sources.items run.lost ⊎
        IsUntold result }
    ensures status { result.status ≡ status_of result.cause }
    ensures journal { result.journal ≡ journal }
    ensures archive { result.archive ≡ archive }
{
    let PartiesRun {
        sources,
        sinks,
        runs,
        ends,
        lost,
        order,
    } = run;
    match report_of(alloc, order.as_slice(), &runs, &ends, sinks, lost) {
        Err(_) => Ended {
            status: status_code(Cause::Memory),
            cause: Cause::Memory,
            order,
            parties: Sequence::new(alloc),
            sources: Sequence::new(alloc),
            journal,
            archive,
        },
        Ok(report) => {
            let cause = give_lines(out, report.text.as_bytes(), report.cause);
            Ended {
                status: status_code(cause),
                cause,
                order,
                parties: report.parties,
                sources: Sequence::from_vec(sources),
                journal,
                archive,
            }
        }
    }
}

/// The cause of an end whose parties weren't run.
pub(crate) fn cause_of_unrun(why: NotRun) -> Cause
    ensures { result ≡ unrun_cause why }
{
    match why {
        NotRun::Doors => Cause::Fault,
        NotRun::Memory => Cause::Memory,
    }
}
