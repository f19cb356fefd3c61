//! Laws of nodes that follow.

ghost use Rattle.outside_api.specs.Disk.{Files};
ghost use Rattle.replica_chain.specs.Chronicle.{Chronicle};
ghost use Rattle.replica_chain.specs.Node.{IsNode};
ghost use Rattle.replica_chain.specs.Opening.{IsFresh};
ghost use Rattle.depot_follow.specs.Following.{BeginsAlike, StandAlike, StandForItsDepots};
ghost use Rattle.depot_follow.specs.Opening.{no_changes};

use outside_api::Disk;
use replica_chain::{Node, Pair};

/// The archive of a node without changes begins as any upstream's.
pub fn new_nodes_begin_alike<D: Disk>(node: &Node<D>)
    ensures { (theirs : Chronicle) (archive : Files) → IsNode D.says node.now no_changes →
        BeginsAlike D.says node.now theirs archive }
{}

/// Files that stand for the depots of files with the rows of an upstream, of which nothing is in doubt, stand for those
/// of the files that it reads.
pub fn copies_have_its_depots<D: Disk>(up: &Node<D>, node: &Node<D>, files: &Pair<D>)
    ensures { IsFresh D.says up.now → StandAlike D.says up.now node.now files.now →
        StandForItsDepots D.says up.now node.now files.now }
{}
