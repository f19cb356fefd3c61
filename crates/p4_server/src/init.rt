//! The mode `init`.

ghost use Rattle.std.specs.Prelude.{◌≡◌};
ghost use Rattle.end_lines.specs.Causes.{status_of};
ghost use Rattle.p4_server.specs.Init.{Inits, cause_by};

use crate::ended::Ended;
use crate::telling::end_alone;
use end_lines::Cause;
use outside_api::{Disk, Sink};
use recovery::{MakeFault, make_files};
use std::alloc::Global;

/// The cause of an end, by how the making ended.
fn cause_of_making(made: Result<(), MakeFault>) -> Cause
    ensures { result ≡ cause_by made }
{
    match made {
        Ok(()) => Cause::Done,
        Err(MakeFault::Made) => Cause::Made,
        Err(MakeFault::DiskFault) => Cause::Fault,
    }
}

/// Makes the files of an empty depot, the root last. Where files are there it touches nothing.
pub fn init<D: Disk, S, K: Sink>(
    alloc: Global,
    journal: D,
    archive: D,
    out: &mut K,
) -> Ended<D, S, K>
    ensures inits { Inits D.says K.says (record { journal = journal; archive = archive; out = out.old })
        (record { out = out.new; ended = result }) }
    ensures status { result.status ≡ status_of result.cause }
{
    let mut journal = journal;
    let mut archive = archive;
    let made = make_files(&mut journal, &mut archive);
    end_alone(alloc, cause_of_making(made), out, journal, archive)
}
