//! The whole following.

ghost use Rattle.std.specs.Prelude.{◌≡◌};
ghost use Rattle.program_words.specs.Words.{words_of};
ghost use Rattle.replica_chain.specs.Node.{CanFollow, files_of};
ghost use Rattle.depot_follow.specs.Chain.{Chains};
ghost use Rattle.depot_follow.specs.Ends.{IsEndedBy, cause_by_node, status_of};
ghost use Rattle.depot_follow.specs.Following.{Follows, FollowsFrom, GotLines};
ghost use Rattle.depot_follow.specs.Lines.{chain_line};
ghost use Rattle.depot_follow.specs.Opening.{left_by};

use crate::ended::{ChainCause, ChainEnded, cause_of_node, cause_of_upstream, ended_by};
use crate::following::follow;
use crate::opening::open_node;
use crate::telling::{give_done, give_end};
use outside_api::{Disk, Sink};
use replica_chain::{Node, NotNode, Pair};
use std::alloc::Global;

/// The end of a following, told by the line of its cause. Whether `out` takes the line changes nothing else of the end.
fn end_chain<D, K: Sink>(
    cause: ChainCause,
    out: &mut K,
    up: Pair<D>,
    node: Pair<D>,
) -> ChainEnded<D>
    ensures line { GotLines K.says out.old out.new (chain_line cause) }
    ensures ended { IsEndedBy result cause up node }
{
    let _ = give_end(out, cause);
    ended_by(cause, up, node)
}

/// Follows an upstream from a node, whose files are open, and tells how it ended.
fn follow_open<D: Disk, K: Sink>(
    alloc: Global,
    up: Node<D>,
    node: Node<D>,
    out: &mut K,
) -> ChainEnded<D>
    requires can { CanFollow D.says node }
    ensures follows { Follows D.says K.says up node out.old out.new result }
    ensures status { result.status ≡ status_of result.cause }
{
    let mut up = up;
    let mut node = node;
    let followed = follow(alloc, &mut up, &mut node);
    let up = up.into_files();
    let node = node.into_files();
    match followed {
        Err(cause) => end_chain(cause, out, up, node),
        Ok(figures) => match give_done(out, figures) {
            Ok(()) => ended_by(ChainCause::Done, up, node),
            Err(_) => ended_by(ChainCause::Fault, up, node),
        },
    }
}

/// The end of a following whose upstream is open and whose node wasn't opened.
fn end_unopened<D: Disk, K: Sink>(up: Node<D>, found: NotNode<D>, out: &mut K) -> ChainEnded<D>
    ensures line { GotLines K.says out.old out.new (chain_line (cause_by_node found.fault)) }
    ensures ended { IsEndedBy result (cause_by_node found.fault) (files_of up) (left_by found) }
{
    let NotNode {
        fault,
        journal,
        archive,
    } = found;
    let node = Pair { journal, archive };
    end_chain(cause_of_node(fault), out, up.into_files(), node)
}

/// Follows an upstream whose files are open.
fn follow_up<D: Disk, K: Sink>(
    alloc: Global,
    up: Node<D>,
    files: Pair<D>,
    out: &mut K,
) -> ChainEnded<D>
    ensures follows { FollowsFrom D.says K.says up files out.old out.new result }
    ensures status { result.status ≡ status_of result.cause }
{
    match open_node(alloc, files) {
        Ok(node) => follow_open(alloc, up, node, out),
        Err(found) => end_unopened(up, found, out),
    }
}

/// Lets a node follow an upstream to its end: opens the files of both, makes the node's where there are none, and
/// compares their journals; then it pulls until the node has all, checks each content, and tells the generation, the
/// changes and the contents. The first word is `follow`, and none is to stand behind it.
pub fn chain_top<D: Disk, K: Sink>(
    alloc: Global,
    words: &[&str],
    up: Pair<D>,
    node: Pair<D>,
    out: &mut K,
) -> ChainEnded<D>
    ensures promise { Chains D.says K.says (words_of words.now) (record { up = up; node = node; out = out.old })
        (record { out = out.new; ended = result }) }
{
    if words.len() > 1 {
        return end_chain(ChainCause::Usage, out, up, node);
    }
    let Pair { journal, archive } = up;
    match Node::open(alloc, journal, archive) {
        Ok(up) => follow_up(alloc, up, node, out),
        Err(found) => {
            let NotNode {
                fault,
                journal,
                archive,
            } = found;
            let up = Pair { journal, archive };
            end_chain(cause_of_upstream(fault), out, up, node)
        }
    }
}
