//! The program over a depot and a node that follows it.

ghost use Rattle.program_words.specs.Words.{words_of};
ghost use Rattle.chain_server.specs.Whole.{IsTask, KeepsAll};

use depot_follow::{ChainEnded, chain_top};
use outside_api::{Clock, Disk, Doors, Gate};
use p4_server::{Ended, p4_top};
use replica_chain::Pair;
use std::alloc::Global;
use std::sync::Wait;
use std::thread::Threads;

/// What words ask for over a depot and a node that follows it.
#[derive(Clone, Copy)]
pub enum Task<'a> {
    /// That the node follows the depot: the first word is `follow`.
    Follow,
    /// A run over the node with these words, before which `node` stands.
    Node(&'a [&'a str]),
    /// A run over the depot with all words.
    Depot,
}

/// What words ask for, by the first of them.
pub fn task_of<'a>(words: &'a [&'a str]) -> Task<'a>
    ensures { IsTask (words_of words.now) result }
{
    match words.split_first() {
        Some((first, _)) if *first == "follow" => Task::Follow,
        Some((first, behind)) if *first == "node" => Task::Node(behind),
        _ => Task::Depot,
    }
}

/// How the program ends over a depot and a node that follows it.
#[derive(Drop)]
pub enum WholeEnded<D, S, K> {
    /// It ran over the depot's disks, and the node's weren't touched.
    Depot {
        ended: Ended<D, S, K>,
        node: Pair<D>,
    },
    /// It ran over the node's disks, and the depot's weren't touched.
    Node {
        ended: Ended<D, S, K>,
        depot: Pair<D>,
    },
    /// The node followed the depot.
    Followed {
        ended: ChainEnded<D>,
    },
}

/// Does all that the program does over a depot and a node that follows it. With the first word `follow` the node
/// follows the depot to its end; with the first word `node` the words behind it are run over the node's disks, as a
/// depot's; all other words are run over the depot's.
pub fn whole_top<
    R: Threads + Wait + Sync,
    H: Doors,
    D: Disk + Send,
    C: Clock + Sync,
    G: Gate + Sync,
>(
    rt: &R,
    alloc: Global,
    words: &[&str],
    doors: &mut H,
    depot: Pair<D>,
    node: Pair<D>,
    out: &mut H::Out,
    clock: &C,
    gate: &G,
) -> WholeEnded<D, H::In, H::Out>
where
    H::Out: Send,
    ensures promise { KeepsAll (record { disk = D.says; source = H.In.says; sink = H.Out.says; doors = H.says; may_give = C.says.may_give clock.now }) (words_of words.now) (record { depot = depot; node = node; doors = doors.old; out = out.old }) (record { doors = doors.new; out = out.new; ended = result }) }
{
    match task_of(words) {
        Task::Follow => {
            let ended = chain_top(alloc, words, depot, node, out);
            WholeEnded::Followed { ended }
        }
        Task::Node(behind) => {
            let Pair { journal, archive } = node;
            let ended = p4_top(rt, alloc, behind, doors, journal, archive, out, clock, gate);
            WholeEnded::Node { ended, depot }
        }
        Task::Depot => {
            let Pair { journal, archive } = depot;
            let ended = p4_top(rt, alloc, words, doors, journal, archive, out, clock, gate);
            WholeEnded::Depot { ended, node }
        }
    }
}
