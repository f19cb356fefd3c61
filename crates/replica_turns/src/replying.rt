//! Commands other than `pull`, among the parties of a run.

ghost use Rattle.std.specs.Prelude.{◌≡◌, ◌⊎◌, ◌≤◌, List, true, false, IfOk, OnErr};
ghost use Rattle.archive_file.specs.Archive.{disk_of as archive_disk_of};
ghost use Rattle.depot_commit.specs.command_core.Outcomes.{IsFormedBy};
ghost use Rattle.depot_rows.specs.depot_model.Deeds.{Deed};
ghost use Rattle.depot_rows.specs.depot_model.Printed.{printed};
ghost use Rattle.disk_journal.specs.Stands.{disk_of};
ghost use Rattle.outside_api.specs.Count.{HasRisen};
ghost use Rattle.depot_rows.specs.Standing.{Stand};
ghost use Rattle.depot_rows.specs.table_changes.Changed.{rows_of};
ghost use Rattle.depot_runs.specs.Replica.{replica_reply};
ghost use Rattle.replica_turns.specs.Replying.{IsAnsweredBy, IsReply, pulls, reads_archive};
ghost use Rattle.serial_depot.specs.Running.{HaveStood};
ghost use Rattle.replica_turns.specs.Turning.{IsUnmoved};
ghost use Rattle.depot_commit.specs.Fetching.{IsFetched, IsRead};
ghost use Rattle.serial_depot.specs.declared.depot.SerialDepot.{SerialDepot as AnyDepot};

use crate::answers::{fault_reply, loses, tells, tells_bad};
use crate::party::Answered;
use crate::pulling::pull;
use archive_file::Archive;
use depot_rows::model::{Command, Request};
use disk_journal::Journal;
use outside_api::Disk;
use replica_answers::{PrintFault, answer, answer_print};
use replica_pull::Replica;
use serial_depot::SerialDepot;
use std::alloc::{AllocError, Global};
use wire_text::print_reply;

/// Whether a request is a `print`, which reads the archive.
pub fn is_print(request: &Request) -> bool
    ensures { result ≡ reads_archive request.now }
{
    matches!(&request.command, Ok(Command::Print { .. }))
}

/// Whether a request is a `pull`.
pub fn is_pull(request: &Request) -> bool
    ensures { result ≡ pulls request.now.command }
{
    matches!(&request.command, Ok(Command::Pull))
}

/// Answers a `print`, with contents of the archive that have the digests of their revisions. Where the archive hasn't
/// one of them, the reply tells where it would begin.
pub(crate) fn reply_print<D: Disk>(
    alloc: Global,
    replica: &Replica,
    archive: &mut Archive<D>,
    request: &Request,
) -> Result<Answered, AllocError>
    requires { reads_archive request.now ≡ true }
    ensures answered { (depot : AnyDepot D) → depot.archive ≡ archive.old → IsFormedBy request.now →
        IfOk result (λ answered. IsReply (λ been. been ≡ depot) D.says replica.now request.now answered.text answered.lost) }
    ensures read { IsRead D.says archive.old archive.new }
    ensures never_falls { D.says.faults (archive_disk_of archive.old) ≤ D.says.faults (archive_disk_of archive.new) }
    ensures only { IfOk result (λ answered. answered.lost ≡ false →
        D.says.faults (archive_disk_of archive.new) ≡ D.says.faults (archive_disk_of archive.old)) }
    ensures no_memory { OnErr result
        (D.says.faults (archive_disk_of archive.new) ≡ D.says.faults (archive_disk_of archive.old)) }
    ensures cause { IfOk result (λ answered. answered.lost ≡ true →
        HasRisen (D.says.faults (archive_disk_of archive.old)) (D.says.faults (archive_disk_of archive.new))) }
{
    let of_fault = fault_reply(alloc, request.number)?;
    match answer_print(alloc, replica, archive, request) {
        Ok(reply) => {
            let text = print_reply(alloc, &reply, request.number)?;
            Ok(tells(text))
        }
        Err(PrintFault::Failed) => Ok(loses(of_fault)),
        Err(PrintFault::Absent(at)) => tells_bad(alloc, at, request.number),
        Err(PrintFault::BadContent(at)) => tells_bad(alloc, at, request.number),
        Err(PrintFault::Memory) => Err(AllocError),
    }
}

/// Answers a command other than `pull` and `print`. No call of a disk is made.
pub(crate) fn reply_bare(
    alloc: Global,
    replica: &Replica,
    request: &Request,
) -> Result<Answered, AllocError>
    requires { reads_archive request.now ≡ false }
    ensures told { (d : List Deed) → Stand (rows_of replica.now.tables) d → IsFormedBy request.now →
        IfOk result (λ answered. answered.text ≡ printed (replica_reply d request.now) request.now.number) }
    ensures kept { IfOk result (λ answered. answered.lost ≡ false) }
{
    let reply = answer(alloc, replica, request)?;
    let text = print_reply(alloc, &reply, request.number)?;
    Ok(tells(text))
}

/// Answers a command other than `print`, for which the journal suffices: `pull` fetches of it.
pub(crate) fn answer_by_journal<D: Disk>(
    alloc: Global,
    replica: &mut Replica,
    journal: &mut Journal<D>,
    request: &Request,
) -> Result<Answered, AllocError>
    requires { reads_archive request.now ≡ false }
    ensures answered { (depot : AnyDepot D) → depot.journal ≡ journal.old → IsFormedBy request.now →
        IfOk result (λ answered. IsAnsweredBy (λ been. been ≡ depot) D.says replica.old replica.new request.now answered.text answered.lost) }
    ensures kept { OnErr result (replica.new ≡ replica.old) }
    ensures fetched { IsFetched D.says journal.old journal.new }
    ensures never_falls { D.says.faults (disk_of journal.old) ≤ D.says.faults (disk_of journal.new) }
    ensures only { IfOk result (λ answered. answered.lost ≡ false →
        D.says.faults (disk_of journal.new) ≡ D.says.faults (disk_of journal.old)) }
    ensures no_memory { OnErr result (D.says.faults (disk_of journal.new) ≡ D.says.faults (disk_of journal.old)) }
    ensures cause { IfOk result (λ answered. answered.lost ≡ true →
        HasRisen (D.says.faults (disk_of journal.old)) (D.says.faults (disk_of journal.new))) }
{
    if is_pull(request) {
        pull(alloc, replica, journal, request.number)
    } else {
        reply_bare(alloc, replica, request)
    }
}

/// Answers a command.
pub(crate) fn answer_request<D: Disk>(
    alloc: Global,
    replica: &mut Replica,
    depot: &mut SerialDepot<D>,
    request: &Request,
) -> Result<Answered, AllocError>
    ensures answered { IsFormedBy request.now →
        IfOk result (λ answered. IsAnsweredBy (λ been. been ≡ depot.old) D.says replica.old replica.new request.now answered.text answered.lost) }
    ensures kept { OnErr result (replica.new ≡ replica.old) }
    ensures depot { IsUnmoved D.says depot.old depot.new }
    ensures only { IfOk result (λ answered. answered.lost ≡ false → HaveStood D.says depot.old depot.new) }
    ensures no_memory { OnErr result (HaveStood D.says depot.old depot.new) }
    ensures cause { IfOk result (λ answered. answered.lost ≡ true →
        HasRisen (D.says.faults (disk_of depot.old.journal)) (D.says.faults (disk_of depot.new.journal)) ⊎
        HasRisen (D.says.faults (archive_disk_of depot.old.archive)) (D.says.faults (archive_disk_of depot.new.archive))) }
{
    if is_print(request) {
        reply_print(alloc, replica, &mut depot.archive, request)
    } else {
        answer_by_journal(alloc, replica, &mut depot.journal, request)
    }
}
