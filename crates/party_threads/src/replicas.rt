//! The replica of one party, on a thread of its own.

ghost use Rattle.std.specs.Prelude.{◌≡◌, ◌≤◌, ◌<◌, ◌+◌, [], length};
ghost use Rattle.party_threads.specs.Replicas.{IsReplicaServed, IsStep};
ghost use Rattle.shared_depot.specs.Replicas.{mark_count};

use locked_tables::PartyPass;
use outside_api::{Clock, Disk, Sink};
use replica_turns::{Answered, ReplicaParty};
use run_parties::give;
use session_loop::SessionRun;
use shared_depot::{BothMarks, Serving, SharedDepot};
use std::alloc::{AllocError, Global};
use std::sync::Wait;

/// Answers the next command of a replica, which has this number, and gives its sink the reply. Answers whether the sink
/// has failed.
fn answer_command<R: Wait, D: Disk, K: Sink, N: Serving>(
    rt: &R,
    alloc: Global,
    depot: &SharedDepot<D, N>,
    number: u32,
    pass: &mut PartyPass<N>,
    marks: &mut BothMarks<N>,
    sink: &mut K,
    replica: &mut ReplicaParty,
) -> bool
    requires { 0 < length replica.old.left.items }
    ensures step { IsStep D.says N.end N.images N.begins N.masters K.says number pass.old pass.new marks.old marks.new replica.old replica.new sink.old sink.new result }
    ensures left { length replica.old.left.items ≡ length replica.new.left.items + 1 }
{
    match depot.answer_replica(rt, alloc, pass, marks, replica) {
        Ok(Answered { text, lost: _ }) => give(sink, Ok(text), number),
        Err(_) => give(sink, Err(AllocError), number),
    }
}

/// Answers the commands of a replica, one after another, as long as its sink takes the replies. The party makes a mark
/// where an answer tells that a disk failed.
pub(crate) fn answer_commands<R: Wait, D: Disk, K: Sink, C: Clock, N: Serving>(
    rt: &R,
    alloc: Global,
    depot: &SharedDepot<D, N>,
    clock: &C,
    pass: &mut PartyPass<N>,
    marks: &mut BothMarks<N>,
    sink: &mut K,
    mut replica: ReplicaParty,
) -> SessionRun
    requires fresh { pass.old.list ≡ [] }
    requires unmarked { marks.old.list ≡ [] }
    requires few { length replica.left.items ≤ 67108864 }
    ensures party { pass.new.party ≡ pass.old.party }
    ensures marks_party { marks.new.party ≡ marks.old.party }
    ensures served { IsReplicaServed D.says N.end N.images N.begins N.masters K.says
        (C.says.may_give clock.now) pass.old.party replica result
        (mark_count marks.new) sink.old sink.new pass.new.list }
{
    let total = replica.left_count();
    for number in 0..total {
        if answer_command(
            rt,
            alloc,
            depot,
            number + 1,
            pass,
            marks,
            sink,
            &mut replica,
        ) {
            return SessionRun {
                commands: number + 1,
                failed: true,
            };
        }
    }
    SessionRun {
        commands: total,
        failed: false,
    }
}
