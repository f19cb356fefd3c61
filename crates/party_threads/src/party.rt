//! A party on a thread of its own.

ghost use Rattle.std.specs.Prelude.{◌≡◌, ◌≤◌, [], length, vec_capacity};
ghost use Rattle.party_threads.specs.Parties.{AreFreshParties, HasRunParty, IsReady};

use crate::replicas::answer_commands;
use crate::session::take_commands;
use depot_model::Request;
use locked_tables::PartyPass;
use outside_api::{Clock, Disk, Gate, Sink};
use replica_turns::ReplicaParty;
use session_loop::SessionRun;
use shared_depot::{BothMarks, Serving, SharedDepot};
use std::alloc::Global;
use std::mem;
use std::sync::Wait;

/// What a party has on its thread.
#[derive(Drop)]
pub(crate) struct ThreadParty<K: Sink, N: Serving> {
    /// The requests of its session, the next one first, each of which gets another moment when it is
    /// taken. A party without a session has none.
    pub(crate) requests: Vec<Request>,
    /// Its replica, if it is one; it has no session then.
    pub(crate) replica: Option<ReplicaParty>,
    /// What it knows of the order.
    pub(crate) pass: PartyPass<N>,
    /// What it knows of the marks.
    pub(crate) marks: BothMarks<N>,
    /// Where its replies go.
    pub(crate) sink: K,
    /// How far it came.
    pub(crate) run: SessionRun,
}

impl<K: Sink, N: Serving> ThreadParty<K, N> {
    /// Has the commands of its session taken, or those of its replica answered.
    pub(crate) fn run<R: Wait, D: Disk, C: Clock, G: Gate>(
        &mut self,
        rt: &R,
        alloc: Global,
        depot: &SharedDepot<D, N>,
        clock: &C,
        gate: &G,
    )
        requires { IsReady N.begins self.old }
        ensures { HasRunParty D.says N.end N.images
            (C.says.may_give clock.now) K.says N.begins N.masters self.old self.new }
    {
        match self.replica.take() {
            Some(replica) => {
                self.run = answer_commands(
                    rt,
                    alloc,
                    depot,
                    clock,
                    &mut self.pass,
                    &mut self.marks,
                    &mut self.sink,
                    replica,
                );
            }
            None => {
                let requests = mem::replace(&mut self.requests, Vec::new(alloc));
                self.run = take_commands(
                    rt,
                    alloc,
                    depot,
                    clock,
                    gate,
                    &mut self.pass,
                    &mut self.sink,
                    requests,
                );
            }
        }
    }
}

/// A party that has had no command taken.
fn fresh_party<K: Sink, N: Serving>(
    requests: Vec<Request>,
    replica: Option<ReplicaParty>,
    pass: PartyPass<N>,
    marks: BothMarks<N>,
    sink: K,
) -> ThreadParty<K, N>
    ensures requests { result.requests ≡ requests }
    ensures replica { result.replica ≡ replica }
    ensures pass { result.pass ≡ pass }
    ensures marks { result.marks ≡ marks }
    ensures sink { result.sink ≡ sink }
{
    ThreadParty {
        requests,
        replica,
        pass,
        marks,
        sink,
        run: SessionRun {
            commands: 0,
            failed: false,
        },
    }
}

/// Puts the parties of a run into a list with room for them, in order. It takes no memory.
pub(crate) fn put_parties<K: Sink + Drop, N: Serving>(
    requests: Vec<Vec<Request>>,
    replicas: Vec<Option<ReplicaParty>>,
    passes: Vec<PartyPass<N>>,
    marks: Vec<BothMarks<N>>,
    sinks: Vec<K>,
    parties: &mut Vec<ThreadParty<K, N>>,
)
    requires as_many_replicas { length replicas.items ≡ length requests.items }
    requires as_many { length passes.items ≡ length requests.items }
    requires as_many_marks { length marks.items ≡ length requests.items }
    requires as_many_sinks { length sinks.items ≡ length requests.items }
    requires none { parties.old.items ≡ [] }
    requires room { length requests.items ≤ vec_capacity parties.old }
    ensures { AreFreshParties requests.items replicas.items passes.items marks.items sinks.items parties.new.items }
{
    let mut replicas = replicas.into_iter();
    let mut passes = passes.into_iter();
    let mut marks = marks.into_iter();
    let mut sinks = sinks.into_iter();
    for own in requests {
        let replica = replicas.next().unwrap();
        let pass = passes.next().unwrap();
        let its_marks = marks.next().unwrap();
        let sink = sinks.next().unwrap();
        parties
            .push(fresh_party(own, replica, pass, its_marks, sink))
            .unwrap();
    }
}
