//! How a following ends.

ghost use Rattle.std.specs.Prelude.{◌≡◌};
ghost use Rattle.depot_follow.specs.Ends.{IsEndedBy, cause_by_node, cause_by_pull, cause_by_upstream, status_of};
ghost use Rattle.depot_follow.specs.declared.ended.ChainCause.TheVariants as causes;

use outside_api::DiskFault;
use recovery::OpenFault;
use replica_chain::{Departure, NodeFault, Pair};

/// Why a following ends.
#[derive(Clone, Copy, PartialEq, Eq)]
pub enum ChainCause {
    /// The node has all that the upstream has, the depot that it follows.
    Done,
    /// A word stands behind `follow`.
    Usage,
    /// The upstream's files aren't there, or are damaged.
    Shut(OpenFault),
    /// The node's files are damaged.
    NodeShut(OpenFault),
    /// The node's journal departs from the upstream's there.
    Apart(Departure),
    /// At this place, in bytes from 0, stands the first of the upstream's journal that can't be taken, or the first
    /// content that isn't there or hasn't the digest of its revision.
    Bad(u64),
    /// The node has all changes that the upstream's journals tell, and other rows than the upstream: an old journal of
    /// it is gone or damaged, or it was made from rows.
    Incomplete,
    /// The outside has failed.
    Fault,
    /// There was no memory.
    Memory,
}

/// What a following leaves.
#[derive(Drop)]
pub struct ChainEnded<D> {
    /// The status with which the program ends: 0 done, 1 usage, 2 files that aren't there, damaged, apart, bad or
    /// incomplete, 4 a fault of the outside, 5 want of memory.
    pub status: u8,
    /// Why it ends.
    pub cause: ChainCause,
    /// The upstream's disks.
    pub up: Pair<D>,
    /// The node's.
    pub node: Pair<D>,
}

/// The status of a cause.
fn status_code(cause: ChainCause) -> u8
    ensures { result ≡ status_of cause }
{
    match cause {
        ChainCause::Done => 0,
        ChainCause::Usage => 1,
        ChainCause::Shut(_)
        | ChainCause::NodeShut(_)
        | ChainCause::Apart(_)
        | ChainCause::Bad(_)
        | ChainCause::Incomplete => 2,
        ChainCause::Fault => 4,
        ChainCause::Memory => 5,
    }
}

/// The cause of an end whose upstream wasn't opened.
pub(crate) fn cause_of_upstream(fault: OpenFault) -> ChainCause
    ensures { result ≡ cause_by_upstream fault }
{
    match fault {
        OpenFault::Unmade | OpenFault::Damaged { .. } => ChainCause::Shut(fault),
        OpenFault::DiskFault => ChainCause::Fault,
        OpenFault::Memory => ChainCause::Memory,
    }
}

/// The cause of an end whose node wasn't opened. Its files are made where there are none, so that it isn't that.
pub(crate) fn cause_of_node(fault: OpenFault) -> ChainCause
    ensures { result ≡ cause_by_node fault }
{
    match fault {
        OpenFault::Damaged { .. } => ChainCause::NodeShut(fault),
        OpenFault::DiskFault => ChainCause::Fault,
        OpenFault::Unmade | OpenFault::Memory => ChainCause::Memory,
    }
}

impl From<DiskFault> for ChainCause {
    ghost from_gives = { λ _ cause. cause ≡ causes.Fault };

    fn from(_: DiskFault) -> ChainCause {
        ChainCause::Fault
    }
}

/// A node took nothing more. An upstream that was opened has no generation behind the last one.
impl From<NodeFault> for ChainCause {
    ghost from_gives = { λ fault cause. cause ≡ cause_by_pull fault };

    fn from(fault: NodeFault) -> ChainCause {
        match fault {
            NodeFault::LinkFault | NodeFault::ContentsFailed | NodeFault::DiskFault => {
                ChainCause::Fault
            }
            NodeFault::BadFeed(place) | NodeFault::BadContent(place) | NodeFault::NoBytes(place) =>
                ChainCause::Bad(place),
            NodeFault::NoGeneration | NodeFault::Memory => ChainCause::Memory,
        }
    }
}

/// The end of a following by a cause.
pub(crate) fn ended_by<D>(cause: ChainCause, up: Pair<D>, node: Pair<D>) -> ChainEnded<D>
    ensures { IsEndedBy result cause up node }
{
    ChainEnded {
        status: status_code(cause),
        cause,
        up,
        node,
    }
}
