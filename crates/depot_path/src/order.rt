//! The order of paths, which is that of the bytes of their printed texts.

ghost use Rattle.std.specs.Prelude.{◌≡◌, ◌≤◌, Some, nat_eq, length, slice_index, refl};
ghost use Rattle.std.specs.Cmp.{partial_equiv_from_equiv};
ghost use Rattle.std.specs.Cmp.Lexicographic.{pointwise, nat_list_eq_equiv};
ghost use Rattle.std.specs.Cmp.Rules.{hashing};
ghost use Rattle.std.specs.Hash as fed;
ghost use Rattle.std.proofs.Common.{rules};
ghost use Rattle.depot_path.specs.Order.{path_cmp};
ghost use Rattle.depot_path.specs.OrderLaws.{paths_po, paths_total, paths_ties};
ghost use Rattle.depot_path.specs.Path.{escaped};

use crate::path::DepotPath;
use std::cmp::Ordering;
use std::hash::{Hash, Hasher};

/// The first byte of a text as it is printed.
fn printed_first(text: &[u8]) -> &[u8]
    requires { 1 ≤ length text.now }
    ensures { result.now ≡ escaped (slice_index text.now 0) }
{
    match text[0] {
        b'@' => b"%40",
        b'#' => b"%23",
        b'*' => b"%2A",
        b'%' => b"%25",
        _ => &text[..1],
    }
}

/// Compares paths in path order.
#[tactic(auto, using(crate::proofs::PathOrder::goes_on, crate::proofs::PathOrder::differs, crate::proofs::PathOrder::none_left, crate::proofs::PathOrder::some_left))]
fn compare(left: &[u8], right: &[u8]) -> Ordering
    ensures { result ≡ path_cmp left.now right.now }
{
    let mut left = left;
    let mut right = right;
    while !left.is_empty() {
        if right.is_empty() {
            return Ordering::Greater;
        }
        let order = printed_first(left).cmp(printed_first(right));
        if order != Ordering::Equal {
            return order;
        }
        left = &left[1..];
        right = &right[1..];
    }
    if right.is_empty() {
        Ordering::Equal
    } else {
        Ordering::Less
    }
}

impl PartialEq for DepotPath {
    ghost eq = { pointwise nat_eq };

    ghost laws = { partial_equiv_from_equiv nat_list_eq_equiv };

    fn eq(&self, other: &DepotPath) -> bool {
        self.as_bytes() == other.as_bytes()
    }
}

impl Eq for DepotPath {
    ghost laws = { nat_list_eq_equiv };
}

impl PartialOrd for DepotPath {
    ghost partial_cmp = { λ a b. Some (path_cmp a b) };

    ghost laws = { paths_po };

    fn partial_cmp(&self, other: &DepotPath) -> Option<Ordering> {
        Some(self.cmp(other))
    }
}

impl Ord for DepotPath {
    ghost cmp = { path_cmp };

    ghost total = { paths_total };

    ghost matches_partial_cmp = { λ a b. refl };

    ghost matches_eq = { paths_ties };

    fn cmp(&self, other: &DepotPath) -> Ordering {
        self.compare(other)
    }
}

impl Hash for DepotPath {
    ghost hash_input = { fed.slice fed.u8 };

    ghost respects_eq = { Prim.search (hashing, rules) };

    fn hash<H: Hasher>(&self, state: &mut H) {
        self.as_bytes().hash(state);
    }
}

impl DepotPath {
    /// Compares two paths in path order: by the bytes of their printed texts.
    pub fn compare(&self, other: &DepotPath) -> Ordering
        ensures { result ≡ path_cmp self.now other.now }
    {
        compare(self.as_bytes(), other.as_bytes())
    }
}
