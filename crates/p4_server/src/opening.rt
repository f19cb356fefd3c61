//! Runs whose files weren't opened.

ghost use Rattle.std.specs.Prelude.{◌≡◌};
ghost use Rattle.end_lines.specs.Causes.{cause_by, status_of};
ghost use Rattle.p4_server.specs.Telling.{IsToldAlone};

use crate::ended::Ended;
use crate::telling::end_alone;
use end_lines::cause_of_fault;
use outside_api::{Disk, Sink};
use recovery::NotOpened;
use std::alloc::Global;

/// The end of a run whose files weren't opened.
pub fn end_unopened<D: Disk, S, K: Sink>(
    alloc: Global,
    found: NotOpened<D>,
    out: &mut K,
) -> Ended<D, S, K>
    ensures told { IsToldAlone K.says out.old out.new result }
    ensures cause { result.cause ≡ cause_by found.fault }
    ensures status { result.status ≡ status_of result.cause }
    ensures journal { result.journal ≡ found.journal }
    ensures archive { result.archive ≡ found.archive }
{
    let NotOpened {
        fault,
        journal,
        archive,
    } = found;
    end_alone(alloc, cause_of_fault(fault), out, journal, archive)
}
