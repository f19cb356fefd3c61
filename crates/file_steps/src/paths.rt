//! Sets of files.

ghost use Rattle.std.specs.Prelude.{◌≡◌, [], IfOk, OnOk, OnErr};
ghost use Rattle.depot_rows.specs.depot_model.Arguments.{is_in};
ghost use Rattle.depot_rows.specs.depot_model.Sorted.{all_inserted, path_inserted};

use depot_rows::paths::{DepotPath, Sequence};
use std::alloc::{AllocError, Global};
use std::collections::BTreeSet;
use std::marker::Model;

/// Files, each once, in path order: the order of the bytes of their printed texts.
#[derive(Drop)]
pub struct PathSet {
    paths: BTreeSet<DepotPath>,
}

impl Model for PathSet {
    ghost use Rattle.std.specs.Prelude.{List, ℕ};

    ghost Value = { List (List ℕ) };

    ghost view = { λ set. set.paths.keys };
}

impl PathSet {
    /// No files, which takes no memory.
    pub fn new(alloc: Global) -> PathSet
        ensures { result ≡ [] }
    {
        PathSet {
            paths: BTreeSet::new(alloc),
        }
    }

    /// Adds a file, unless it is there. Without memory for it the set stays as it was.
    pub fn insert(&mut self, path: DepotPath) -> Result<(), AllocError>
        ensures ok { OnOk result (self.new ≡ path_inserted path self.old) }
        ensures err { OnErr result (self.new ≡ self.old) }
    {
        self.paths.insert(path)?;
        Ok(())
    }

    /// Whether a file is there. It compares about as many paths as the number of files has binary digits.
    pub fn contains(&self, path: &DepotPath) -> bool
        ensures { result ≡ is_in self.now path.now }
    {
        self.paths.contains(path)
    }

    /// The files, in path order. The one error is want of memory.
    pub fn into_sequence(self, alloc: Global) -> Result<Sequence<DepotPath>, AllocError>
        ensures { IfOk result (λ paths. paths ≡ self) }
    {
        let mut paths = Sequence::new(alloc);
        for path in self.paths {
            paths.push(path)?;
        }
        Ok(paths)
    }
}

/// Files in path order, each once. The one error is want of memory.
#[tactic(auto, using(crate::proofs::Inserting::last_inserted))]
pub fn in_path_order(
    alloc: Global,
    paths: Sequence<DepotPath>,
) -> Result<Sequence<DepotPath>, AllocError>
    ensures { IfOk result (λ sorted. sorted ≡ all_inserted paths []) }
{
    let mut set = PathSet::new(alloc);
    let mut rest = paths.into_vec();
    while let Some(path) = rest.pop() {
        set.insert(path)?;
    }
    let sorted = set.into_sequence(alloc)?;
    Ok(sorted)
}
