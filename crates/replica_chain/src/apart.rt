//! Where the journal of a node departs from the one that it follows.

ghost use Rattle.std.specs.Prelude.{◌≡◌, ◌⊎◌, ◌≤◌, ◌<◌, ◌^◌, ℕ, List, length, IfOk, OnErr};
ghost use Rattle.outside_api.specs.Count.{HasRisen};
ghost use Rattle.outside_api.specs.Link.{Answers, Fits};
ghost use Rattle.disk_journal.specs.Stands.{disk_of};
ghost use Rattle.replica_chain.specs.Apart.{AreSameTo, GoesOn, IsCommon, IsCompared, IsComparedPiece, IsComparison};
ghost use Rattle.replica_chain.specs.Chronicle.{Chronicle};
ghost use Rattle.replica_chain.specs.Ends.{HasTexts, IsLinkLooked, IsLooked};
ghost use Rattle.replica_chain.specs.Node.{CanFollow, IsNode};

use crate::node::Node;
use disk_journal::{Journal, Scanned};
use outside_api::{Disk, DiskFault, Fetched};

/// How many bytes of both journals are compared at a time.
const PIECE: usize = 65_536;

/// No file is so long.
const TOO_LONG: u64 = 0x8000_0000_0000_0000;

/// Where a node's journal departs: the generation, and the place in its text, in bytes from 0.
#[derive(Clone, Copy, PartialEq, Eq)]
pub struct Departure {
    pub generation: u32,
    pub place: u64,
}

/// How the texts of a generation compare.
#[derive(Clone, Copy)]
pub(crate) enum Compared {
    /// Both are closed, with the same text.
    Closed,
    /// The node's isn't closed, and the other's begins with its text.
    Open,
    /// The node's departs at this place.
    Apart(u64),
}

/// How a piece of both texts compares.
#[derive(Clone, Copy)]
enum Front {
    /// So many bytes are the same.
    Same(u64),
    /// One of them ends, and so they compare.
    Last(Compared),
}

/// How many bytes at the front of both are the same.
fn common(one: &[u8], other: &[u8]) -> usize
    ensures { IsCommon one.now other.now result }
{
    let least = one.len().min(other.len());
    for count in 0..least {
        if one[count] != other[count] {
            return count;
        }
    }
    least
}

/// Compares what was fetched of two journals from a place on. Where something is the same it is at least one byte.
fn compare_pieces(at: u64, node: Fetched, node_bytes: &[u8], up: Fetched, up_bytes: &[u8]) -> Front
    requires small { at < 2 ^ 63 }
    requires node_fits { Fits node (length node_bytes.now) }
    requires up_fits { Fits up (length up_bytes.now) }
    // Of journals that are the same up to the place.
    ensures compared { (texts others : List (List ℕ)) (generation : ℕ) → AreSameTo texts others generation at →
        Answers texts generation at node node_bytes.now → Answers others generation at up up_bytes.now →
        IsComparedPiece texts others generation at result }
    ensures some { GoesOn (length node_bytes.now) result }
{
    match (node, up) {
        (Fetched::End, _) => Front::Last(Compared::Open),
        (Fetched::Next, Fetched::Next) => Front::Last(Compared::Closed),
        (Fetched::Bytes(count), Fetched::Bytes(most)) => {
            let least = count.min(most);
            let same = common(&node_bytes[..least], &up_bytes[..least]);
            if same == 0 || same < least {
                Front::Last(Compared::Apart(at + same as u64))
            } else {
                Front::Same(same as u64)
            }
        }
        (Fetched::Next | Fetched::Bytes(_), _) => Front::Last(Compared::Apart(at)),
    }
}

/// Compares the texts of a generation, through two buffers.
fn compare_generation<D: Disk>(
    node: &mut Journal<D>,
    up: &mut Journal<D>,
    generation: u32,
    buffer: &mut [u8],
    other: &mut [u8],
) -> Result<Compared, DiskFault>
    requires room { 0 < length buffer.old }
    requires other_room { 0 < length other.old }
    ensures exactly { (texts others : List (List ℕ)) → HasTexts D.says node.old texts → HasTexts D.says up.old others →
        IfOk result (IsCompared texts others generation) }
    ensures node_looked { IsLooked D.says node.old node.new }
    ensures up_looked { IsLooked D.says up.old up.new }
    ensures node_faults { D.says.faults (disk_of node.old) ≤ D.says.faults (disk_of node.new) }
    ensures up_faults { D.says.faults (disk_of up.old) ≤ D.says.faults (disk_of up.new) }
    ensures cause { OnErr result (HasRisen (D.says.faults (disk_of node.old)) (D.says.faults (disk_of node.new)) ⊎
        HasRisen (D.says.faults (disk_of up.old)) (D.says.faults (disk_of up.new))) }
{
    let mut node_scanned = Scanned::nothing();
    let mut up_scanned = Scanned::nothing();
    let mut at = 0u64;
    while at < TOO_LONG {
        let of_node = node.fetch_on(&mut node_scanned, generation, at, buffer)?;
        let of_up = up.fetch_on(&mut up_scanned, generation, at, other)?;
        match compare_pieces(at, of_node, buffer, of_up, other) {
            Front::Same(count) => at += count,
            Front::Last(compared) => return Ok(compared),
        }
    }
    Ok(Compared::Open)
}

/// The first generation and place at which the committed text of a node's journal departs from another's. It takes no
/// memory.
fn first_departure<D: Disk>(
    node: &mut Journal<D>,
    up: &mut Journal<D>,
) -> Result<Option<Departure>, DiskFault>
    ensures exactly { (texts others : List (List ℕ)) → HasTexts D.says node.old texts → HasTexts D.says up.old others →
        IfOk result (IsComparison texts others) }
    ensures node_looked { IsLooked D.says node.old node.new }
    ensures up_looked { IsLooked D.says up.old up.new }
    ensures node_faults { D.says.faults (disk_of node.old) ≤ D.says.faults (disk_of node.new) }
    ensures up_faults { D.says.faults (disk_of up.old) ≤ D.says.faults (disk_of up.new) }
    ensures cause { OnErr result (HasRisen (D.says.faults (disk_of node.old)) (D.says.faults (disk_of node.new)) ⊎
        HasRisen (D.says.faults (disk_of up.old)) (D.says.faults (disk_of up.new))) }
{
    let mut buffer = [0u8; PIECE];
    let mut other = [0u8; PIECE];
    let newest = node.generation();
    for generation in 0..=newest {
        match compare_generation(node, up, generation, &mut buffer, &mut other)? {
            Compared::Closed => {}
            Compared::Open => return Ok(None),
            Compared::Apart(place) => return Ok(Some(Departure { generation, place })),
        }
    }
    Ok(None)
}

impl<D: Disk> Node<D> {
    /// The first generation and place at which the committed text of this node's journal departs from another's: where
    /// it differs, where it goes on past it, or where it is closed and the other isn't closed there. It takes no
    /// memory.
    pub fn departs(&mut self, up: &mut Node<D>) -> Result<Option<Departure>, DiskFault>
        ensures exactly { (texts others : List (List ℕ)) → HasTexts D.says self.old.link.journal texts →
            HasTexts D.says up.old.link.journal others → IfOk result (IsComparison texts others) }
        // Both journals were only looked at, and what the nodes have they still have.
        ensures node_looked { IsLooked D.says self.old.link.journal self.new.link.journal }
        ensures up_looked { IsLooked D.says up.old.link.journal up.new.link.journal }
        // So were the links, from which the next nodes follow.
        ensures links { IsLinkLooked D.says self.old.link self.new.link × IsLinkLooked D.says up.old.link up.new.link }
        ensures others { (self.new ≡ record self.old { link = self.new.link }) ×
            (up.new ≡ record up.old { link = up.new.link }) }
        ensures nodes { (c : Chronicle) →
            (IsNode D.says self.old c → IsNode D.says self.new c) × (IsNode D.says up.old c → IsNode D.says up.new c) }
        ensures can { (CanFollow D.says self.old → CanFollow D.says self.new) ×
            (CanFollow D.says up.old → CanFollow D.says up.new) }
        ensures node_faults { D.says.faults (disk_of self.old.link.journal) ≤
            D.says.faults (disk_of self.new.link.journal) }
        ensures up_faults { D.says.faults (disk_of up.old.link.journal) ≤ D.says.faults (disk_of up.new.link.journal) }
        ensures cause { OnErr result (HasRisen (D.says.faults (disk_of self.old.link.journal)) (D.says.faults (disk_of self.new.link.journal)) ⊎ HasRisen (D.says.faults (disk_of up.old.link.journal)) (D.says.faults (disk_of up.new.link.journal))) }
    {
        first_departure(&mut self.link.journal, &mut up.link.journal)
    }
}
