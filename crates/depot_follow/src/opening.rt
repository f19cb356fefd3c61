//! Opening the files of a node that follows.

ghost use Rattle.std.specs.Prelude.{IfOk};
ghost use Rattle.std.specs.Result.{IfErr};
ghost use Rattle.replica_chain.specs.Node.{CanFollow};
ghost use Rattle.depot_follow.specs.Opening.{IsNotOpenedOrMade, IsOpenedOrMade, left_by};

use outside_api::Disk;
use recovery::{MakeFault, OpenFault, make_files};
use replica_chain::{Node, NotNode, Pair};
use std::alloc::Global;

/// Opens the files of a node, which are made where there are none.
pub(crate) fn open_node<D: Disk>(alloc: Global, files: Pair<D>) -> Result<Node<D>, NotNode<D>>
    ensures can { IfOk result (CanFollow D.says) }
    ensures opened { IfOk result (IsOpenedOrMade D.says files) }
    ensures unopened { IfErr result (λ found. IsNotOpenedOrMade D.says files found.fault (left_by found)) }
{
    let Pair {
        mut journal,
        mut archive,
    } = files;
    match make_files(&mut journal, &mut archive) {
        Ok(()) => Node::open(alloc, journal, archive),
        Err(MakeFault::Made) => Node::open(alloc, journal, archive),
        Err(MakeFault::DiskFault) => Err(NotNode {
            fault: OpenFault::DiskFault,
            journal,
            archive,
        }),
    }
}
