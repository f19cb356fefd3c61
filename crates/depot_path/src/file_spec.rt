//! File specifications: files by their paths, and the revisions of them.

ghost use Rattle.std.specs.Prelude.{◌≡◌, ◌<◌, false, codes, length, position, IfSome};
ghost use Rattle.depot_path.specs.Bytes.{is_among};
ghost use Rattle.depot_path.specs.Pattern.{pattern_of};
ghost use Rattle.depot_path.specs.Answers.{Answers};
ghost use Rattle.depot_path.specs.Revision.{file_spec_of, spec_of, wanted_of};

use crate::fault::PathFault;
use crate::pattern::Pattern;
use crate::revision::{Wanted, read_wanted};
use std::alloc::Global;

/// Files, and the revisions of them that are asked for.
#[derive(Clone, PartialEq, Eq)]
pub struct FileSpec {
    /// Which files.
    pub pattern: Pattern,
    /// Which revisions.
    pub wanted: Wanted,
}

impl Drop for FileSpec {
    fn drop(self) {
        let FileSpec {
            pattern: _,
            wanted: _,
        } = self;
    }
}

fn mark_in(text: &[u8]) -> Option<usize>
    ensures value { result ≡ position (is_among (codes "#@")) text.now }
    ensures within { IfSome result (λ mark. mark < length text.now) }
{
    text.iter().position(|byte| matches!(*byte, b'#' | b'@'))
}

#[tactic(auto, using(crate::proofs::Answers::right, crate::proofs::Answers::wanting, crate::proofs::Answers::after, crate::proofs::Answers::fails))]
fn read_unmarked(alloc: Global, text: &[u8]) -> Result<FileSpec, PathFault>
    ensures { Answers PathFault.Memory result (spec_of (pattern_of false text.now) (Ok Wanted.Head)) }
{
    let pattern = Pattern::read(alloc, text, false)?;
    Ok(FileSpec {
        pattern,
        wanted: Wanted::Head,
    })
}

#[tactic(auto, using(crate::proofs::Answers::right, crate::proofs::Answers::wanting, crate::proofs::Answers::after, crate::proofs::Answers::fails))]
fn read_marked(
    alloc: Global,
    front: &[u8],
    hash: bool,
    revisions: &[u8],
) -> Result<FileSpec, PathFault>
    ensures { Answers PathFault.Memory result (spec_of (pattern_of false front.now) (wanted_of hash revisions.now)) }
{
    let pattern = Pattern::read(alloc, front, false)?;
    let wanted = read_wanted(alloc, hash, revisions)?;
    Ok(FileSpec { pattern, wanted })
}

impl FileSpec {
    /// Reads a file specification: a pattern up to the first `#` or `@`, and revisions from there on. The faults of the
    /// pattern come first, then `BadRevision`, `BadRange` and `BadDate` in this order over the whole of the revisions.
    pub fn read(alloc: Global, text: &[u8]) -> Result<Self, PathFault>
        ensures { Answers PathFault.Memory result (file_spec_of text.now) }
    {
        match mark_in(text) {
            Some(mark) => read_marked(alloc, &text[..mark], text[mark] == b'#', &text[mark + 1..]),
            None => read_unmarked(alloc, text),
        }
    }
}
