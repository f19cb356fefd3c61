//! Laws of nodes.

ghost use Rattle.std.specs.Prelude.{◌≡◌, ◌≤◌, ℕ, List, None, length, take};
ghost use Rattle.std.specs.List.{AllByRecursion};
ghost use Rattle.archive_file.specs.Archive.{disk_of as archive_disk_of};
ghost use Rattle.archive_file.specs.Contents.{IsTold};
ghost use Rattle.depot_rows.specs.db_records.declared.table.TableId.TheVariants.{Rev};
ghost use Rattle.depot_rows.specs.depot_model.Deeds.{Deed};
ghost use Rattle.disk_journal.specs.Stands.{disk_of};
ghost use Rattle.journal_groups.specs.Groups.{IsGroup};
ghost use Rattle.outside_api.specs.Disk.{Files};
ghost use Rattle.outside_api.specs.Moments.{LeavesOnly};
ghost use Rattle.recovery.specs.Holding.{spots_end};
ghost use Rattle.recovery.specs.Standing.{StandFor};
ghost use Rattle.replica_chain.specs.Apart.{IsComparison};
ghost use Rattle.replica_chain.specs.Chronicle.{Chronicle, changes_of, generations_of, rows_made, texts_of};
ghost use Rattle.replica_chain.specs.Ends.{HasTexts, TellsTexts};
ghost use Rattle.replica_chain.specs.Masters.{HasAllOf, IsBehind, IsDepotOf, IsMaster, OpensToAPrefix, StandsAfter, StaysBehind, TellsGroups, Upstream, WasFollowed};
ghost use Rattle.replica_chain.specs.Node.{IsNode};
ghost use Rattle.replica_chain.specs.Opening.{AreWritten, IsFresh};

use crate::node::Node;
use outside_api::Disk;

/// A node behind what another node's journal and archive tell, which is behind a master, is behind that master.
pub fn nodes_behind_nodes<D: Disk>(node: &Node<D>, up: &Node<D>)
    ensures { (mine theirs : Chronicle) (told master : Upstream) → HasTexts D.says up.now.link.journal told.texts →
        IsTold D.says up.now.archive told.bytes →
        IsBehind D.says node.now mine told → IsBehind D.says up.now theirs master →
        IsBehind D.says node.now mine master }
{}

/// Each pair of images of a node's disks that is behind a master stands for the depot after so many of the master's
/// changes as the node has, or one more. So it does at every stop, and files that read so are those of a depot, to
/// which the node's files are promoted.
pub fn nodes_open_to_prefixes<D: Disk>(node: &Node<D>)
    ensures { (mine theirs : Chronicle) (bytes : List ℕ) (after : ℕ → List Deed) → IsMaster theirs bytes after →
        IsBehind D.says node.now mine (record { texts = texts_of theirs; bytes = bytes }) →
        OpensToAPrefix D.says node.now after (length (changes_of theirs)) (length (changes_of mine)) }
{}

/// So does, after a pull or a whole following, each image that its journal's disk left at any moment since that began,
/// with each image of its archive now: for no fewer changes than the node had.
pub fn nodes_open_at_every_moment<D: Disk>(old: &Node<D>, new: &Node<D>)
    ensures { (mine theirs : Chronicle) (bytes : List ℕ) (after : ℕ → List Deed) → IsMaster theirs bytes after →
        IsNode D.says old.now mine →
        StaysBehind D.says old.now new.now mine (record { texts = texts_of theirs; bytes = bytes }) →
        LeavesOnly D.says (disk_of old.now.link.journal) (disk_of new.now.link.journal) (λ journal. (archive : Files) →
        D.says.may_leave (archive_disk_of new.now.archive) archive →
        StandsAfter after (length (changes_of mine)) (length (changes_of theirs)) journal archive) }
{}

/// A node that others followed has the changes that it had, and tells no other texts and bytes.
pub fn nodes_stay_while_followed<D: Disk>(old: &Node<D>, new: &Node<D>)
    ensures node { (c : Chronicle) → WasFollowed D.says old.now new.now → IsNode D.says old.now c →
        IsNode D.says new.now c }
    ensures texts { (c : Chronicle) (texts : List (List ℕ)) → WasFollowed D.says old.now new.now →
        IsNode D.says old.now c → HasTexts D.says new.now.link.journal texts → texts ≡ texts_of c }
    ensures bytes { (before now : List ℕ) → WasFollowed D.says old.now new.now → IsTold D.says old.now.archive before →
        IsTold D.says new.now.archive now → now ≡ before }
{}

/// A node that is behind what a node with these changes tells, in the same generation and with as many changes, has all
/// of them and no other.
pub fn nodes_that_have_all<D: Disk>(node: &Node<D>)
    ensures all { (mine theirs : Chronicle) (bytes : List ℕ) →
        AllByRecursion (AllByRecursion IsGroup) (generations_of theirs) →
        IsBehind D.says node.now mine (record { texts = texts_of theirs; bytes = bytes }) →
        length mine.closed ≡ length theirs.closed → length (changes_of mine) ≡ length (changes_of theirs) →
        HasAllOf D.says node.now theirs bytes }
    // Each pair of its images stands for the depot that these make.
    ensures opens { (c : Chronicle) (bytes : List ℕ) (d : List Deed) → HasAllOf D.says node.now c bytes →
        IsDepotOf c bytes d →
        (journal archive : Files) → D.says.may_leave (disk_of node.now.link.journal) journal →
        D.says.may_leave (archive_disk_of node.now.archive) archive → StandFor d journal archive }
{}

/// A node that was opened is behind another where its journal doesn't depart from that one's, and its archive has the
/// first of the bytes as far as the spots of its rows.
pub fn nodes_opened_are_behind<D: Disk>(node: &Node<D>)
    ensures { (c : Chronicle) (texts : List (List ℕ)) (bytes : List ℕ) → IsNode D.says node.now c →
        IsFresh D.says node.now → IsComparison (texts_of c) texts None →
        spots_end (rows_made c Rev) ≤ length bytes →
        ((image : Files) → D.says.may_leave (archive_disk_of node.now.archive) image →
        take (spots_end (rows_made c Rev)) (image 0) ≡ take (spots_end (rows_made c Rev)) bytes) →
        IsBehind D.says node.now c (record { texts = texts; bytes = bytes }) }
{}

/// Files that were written from the first change on, and stand for a depot, have it by their changes and by what a node
/// of them tells of its archive.
pub fn nodes_have_their_depots<D: Disk>(node: &Node<D>)
    ensures { (c : Chronicle) (journal archive : Files) (d : List Deed) (bytes : List ℕ) → IsNode D.says node.now c →
        AreWritten c journal → StandFor d journal archive →
        D.says.seen (archive_disk_of node.now.archive) archive → IsTold D.says node.now.archive bytes →
        IsDepotOf c bytes d }
{}

/// A node's journal tells the next node the texts of its changes, and no others; and its archive tells its bytes as far
/// as it is used.
pub fn nodes_tell_their_changes<D: Disk>(node: &Node<D>)
    ensures tells { (c : Chronicle) → IsNode D.says node.now c → TellsTexts D.says node.now.link (texts_of c) }
    ensures only { (c : Chronicle) (texts : List (List ℕ)) → IsNode D.says node.now c →
        HasTexts D.says node.now.link.journal texts → texts ≡ texts_of c }
    // What it tells is always of whole groups.
    ensures groups { TellsGroups (TellsTexts D.says node.now.link) }
    ensures contents { (c : Chronicle) → IsNode D.says node.now c →
        (bytes : List ℕ) × IsTold D.says node.now.archive bytes }
{}
