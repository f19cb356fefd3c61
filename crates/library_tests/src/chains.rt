//! A node that follows a journal and copies contents of an archive, both in memory (`replica_chain`).

ghost use Rattle.std.specs.Prelude.{IfSome};
ghost use Rattle.replica_chain.specs.Node.{CanFollow};

use crate::calls::link_to;
use archive_file::{Contents, MemoryContents};
use depot_path::Text;
use journal_groups::Moved;
use memory_world::MemoryDisk;
use outside_api::{Disk, Link};
use recovery::make_files;
use replica_chain::{Node, NodeFault, NotNode, Pair};
use std::alloc::{AllocError, Global};

/// The committed text of a journal of five changes: a client is saved, a file is added with no bytes and submitted, and
/// edited and submitted as `hello`.
pub const JOURNAL: &[u8] = b"@ex@\n\
@nx@ 1 80\n\
@pv@ 1 @db.domain@ @client@ @ws1@ @Client:\tws1\n\
\n\
View:\n\
\t//depot/... //ws1/...\n\
\n\
@\n\
@ex@\n\
@nx@ 2 62\n\
@pv@ 1 @db.working@ @//depot/a@ @ws1@ 0 @add@ @text@ 0 0 @@ 0\n\
@ex@\n\
@nx@ 3 277\n\
@pv@ 1 @db.counters@ @change@ 1\n\
@pv@ 1 @db.change@ 1 @submitted@ @ann@ @ws1@ 1700000000 @one@\n\
@pv@ 1 @db.rev@ @//depot/a@ 1 1 @add@ @text@ @D41D8CD98F00B204E9800998ECF8427E@ 0 0\n\
@pv@ 1 @db.have@ @ws1@ @//depot/a@ 1\n\
@dv@ 1 @db.working@ @//depot/a@ @ws1@ 0 @add@ @text@ 0 0 @@ 0\n\
@ex@\n\
@nx@ 4 63\n\
@pv@ 1 @db.working@ @//depot/a@ @ws1@ 1 @edit@ @text@ 0 0 @@ 0\n\
@ex@\n\
@nx@ 5 279\n\
@rv@ 1 @db.counters@ @change@ 2\n\
@pv@ 1 @db.change@ 2 @submitted@ @ann@ @ws1@ 1700000000 @two@\n\
@pv@ 1 @db.rev@ @//depot/a@ 2 2 @edit@ @text@ @5D41402ABC4B2A76B9719D911017C592@ 5 0\n\
@rv@ 1 @db.have@ @ws1@ @//depot/a@ 2\n\
@dv@ 1 @db.working@ @//depot/a@ @ws1@ 1 @edit@ @text@ 0 0 @@ 0\n";

/// How a pull of the whole journal is answered.
const TAKEN: Moved = Moved::Taken {
    bytes: 838,
    changes: 5,
};

/// More calls than an opening and a pull of all make of the disk of the journal.
const JOURNAL_CALLS: u64 = 30;

/// More calls than they make of that of the archive.
const ARCHIVE_CALLS: u64 = 8;

/// How a pull is answered, and how many changes of generation 0 the node has then.
type Pulled = (Result<Moved, NodeFault>, u64);

/// The node of fresh files on these disks.
fn node_on<D: Disk + Drop>(alloc: Global, files: Pair<D>) -> Option<Node<D>>
    ensures { IfSome result (CanFollow D.says) }
{
    let Pair {
        mut journal,
        mut archive,
    } = files;
    make_files(&mut journal, &mut archive).ok()?;
    Node::open(alloc, journal, archive).ok()
}

/// Whether pulls, one after another, are answered so.
fn pulls<D: Disk, L: Link, C: Contents>(
    alloc: Global,
    node: &mut Node<D>,
    link: &mut L,
    contents: &mut C,
    answers: &[Pulled],
) -> bool
    requires { CanFollow D.says node.old }
{
    for (answer, changes) in answers {
        if node.pull(alloc, link, contents) != *answer || node.position() != (0, *changes) {
            return false;
        }
    }
    true
}

/// Whether a node of fresh files on these disks pulls so.
fn makes_and_pulls<D: Disk + Drop, L: Link, C: Contents>(
    alloc: Global,
    files: Pair<D>,
    link: &mut L,
    contents: &mut C,
    answers: &[Pulled],
) -> bool {
    let Some(mut node) = node_on(alloc, files) else {
        return false;
    };
    let pulled = pulls(alloc, &mut node, link, contents, answers);
    drop(node);
    pulled
}

/// Disks in memory with no bytes.
fn empty_disks(alloc: Global) -> Pair<MemoryDisk> {
    Pair {
        journal: MemoryDisk::new(Vec::new(alloc)),
        archive: MemoryDisk::new(Vec::new(alloc)),
    }
}

/// The archive with these bytes.
pub fn contents_of(alloc: Global, bytes: &[u8]) -> Result<MemoryContents, AllocError> {
    let bytes = Text::from_bytes(alloc, bytes)?;
    Ok(MemoryContents::new(bytes, Vec::new(alloc)))
}

/// Whether a fresh node that follows the journal, with these bytes in the archive that it copies from, pulls so.
fn follows(alloc: Global, bytes: &[u8], answers: &[Pulled]) -> bool {
    let Ok(mut link) = link_to(alloc, JOURNAL) else {
        return false;
    };
    let Ok(mut contents) = contents_of(alloc, bytes) else {
        drop(link);
        return false;
    };
    let follows = makes_and_pulls(alloc, empty_disks(alloc), &mut link, &mut contents, answers);
    drop(contents);
    drop(link);
    follows
}

/// The files after they were opened as a node's and it has pulled, each as far as it came.
fn pull_once<D: Disk, L: Link, C: Contents>(
    alloc: Global,
    files: Pair<D>,
    link: &mut L,
    contents: &mut C,
) -> Pair<D> {
    match Node::open(alloc, files.journal, files.archive) {
        Ok(mut node) => {
            let _ = node.pull(alloc, link, contents);
            node.into_files()
        }
        Err(found) => {
            let NotNode {
                fault: _,
                journal,
                archive,
            } = found;
            Pair { journal, archive }
        }
    }
}

/// Whether files open as a node's that has some of the changes, and takes the others.
fn opens_and_ends<D: Disk + Drop, L: Link, C: Contents>(
    alloc: Global,
    files: Pair<D>,
    link: &mut L,
    contents: &mut C,
) -> bool {
    let Ok(mut node) = Node::open(alloc, files.journal, files.archive) else {
        return false;
    };
    let ends = node.pull(alloc, link, contents).is_ok() && node.position() == (0, 5);
    drop(node);
    ends
}

/// Fresh files, of whose journal this call fails, and of whose archive that one; from 1, 0 for none.
fn failing_files(alloc: Global, of_journal: u64, of_archive: u64) -> Option<Pair<MemoryDisk>> {
    let Pair {
        mut journal,
        mut archive,
    } = empty_disks(alloc);
    make_files(&mut journal, &mut archive).ok()?;
    Some(Pair {
        journal: journal.with_fails(vec![in alloc; of_journal].ok()?),
        archive: archive.with_fails(vec![in alloc; of_archive].ok()?),
    })
}

/// What a stop now leaves of the disks, with these open bytes.
fn left_of(files: &Pair<MemoryDisk>, open: &[u8]) -> Option<Pair<MemoryDisk>> {
    Some(Pair {
        journal: files.journal.image(u64::MAX, open).ok()?,
        archive: files.archive.image(u64::MAX, open).ok()?,
    })
}

/// Whether a stop at these calls of an opening and a pull leaves files of a node, which goes on from there.
fn goes_on_after_a_stop<L: Link, C: Contents>(
    alloc: Global,
    link: &mut L,
    contents: &mut C,
    of_journal: u64,
    of_archive: u64,
    open: &[u8],
) -> bool {
    let Some(files) = failing_files(alloc, of_journal, of_archive) else {
        return false;
    };
    let files = pull_once(alloc, files, link, contents);
    let Some(left) = left_of(&files, open) else {
        drop(files);
        return false;
    };
    drop(files);
    opens_and_ends(alloc, left, link, contents)
}

/// Whether it does wherever a call of either disk fails.
fn goes_on_after_each_stop<L: Link, C: Contents>(
    alloc: Global,
    link: &mut L,
    contents: &mut C,
    open: &[u8],
) -> bool {
    for call in 0..JOURNAL_CALLS {
        if !goes_on_after_a_stop(alloc, link, contents, call, 0, open) {
            return false;
        }
    }
    for call in 0..ARCHIVE_CALLS {
        if !goes_on_after_a_stop(alloc, link, contents, 0, call, open) {
            return false;
        }
    }
    true
}

/// Whether a node on these disks takes all changes, and hands them on to a second one, wherever that one is stopped.
fn hands_on<D: Disk + Drop, L: Link, C: Contents>(
    alloc: Global,
    files: Pair<D>,
    link: &mut L,
    contents: &mut C,
) -> bool {
    let Some(mut node) = node_on(alloc, files) else {
        return false;
    };
    let hands_on = pulls(alloc, &mut node, link, contents, &[(Ok(TAKEN), 5)])
        && goes_on_after_each_stop(alloc, &mut node.link, &mut node.archive, &[0; 1024])
        && goes_on_after_each_stop(alloc, &mut node.link, &mut node.archive, &[255; 1024]);
    drop(node);
    hands_on
}

/// Whether a fresh node that follows the journal hands it on.
fn hands_on_the_journal(alloc: Global) -> bool {
    let Ok(mut link) = link_to(alloc, JOURNAL) else {
        return false;
    };
    let Ok(mut contents) = contents_of(alloc, b"hello") else {
        drop(link);
        return false;
    };
    let hands_on = hands_on(alloc, empty_disks(alloc), &mut link, &mut contents);
    drop(contents);
    drop(link);
    hands_on
}

#[test]
fn a_node_takes_groups_whose_contents_have_their_digests(rt: HostRuntime) {
    assert!(rt;
        follows(
            rt.alloc(),
            b"hello",
            &[(Ok(TAKEN), 5), (Ok(Moved::Nothing), 5)]
        )
    );
}

#[test]
fn a_node_refuses_a_content_with_another_digest(rt: HostRuntime) {
    let refused = (Err(NodeFault::BadContent(0)), 4);
    assert!(rt; follows(rt.alloc(), b"jello", &[refused, refused]));
}

#[test]
fn a_node_refuses_a_group_whose_bytes_are_not_there(rt: HostRuntime) {
    assert!(rt; follows(rt.alloc(), b"hell", &[(Err(NodeFault::NoBytes(0)), 4)]));
}

#[test]
fn a_node_follows_a_node_and_goes_on_after_each_stop(rt: HostRuntime) {
    assert!(rt; hands_on_the_journal(rt.alloc()));
}
