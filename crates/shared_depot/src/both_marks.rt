//! The marks of a party.
ghost use Rattle.std.specs.Prelude.{◌≡◌, []};
ghost use Rattle.party_marks.specs.Marks.{has_marks};

use crate::of_archive::OfArchive;
use crate::serving::Serving;
use party_marks::MarkPass;
use std::marker::Model;

/// What a party knows of its marks: of those that it made since the journal's disk failed, and of those
/// that it made since the archive's did. Contracts see the two lists, one behind the other.
#[derive(Drop)]
pub struct BothMarks<N: Serving> {
    pub(crate) journal: MarkPass<N>,
    pub(crate) archive: MarkPass<OfArchive<N>>,
}

impl<N: Serving> Model for BothMarks<N> {
    ghost use Rattle.std.specs.Prelude.{◌≡◌, ◌++◌};
    ghost use Rattle.party_marks.specs.Known.{PassKnown};

    ghost Value = { PassKnown };

    ghost view = { λ b. record { party = b.journal.party; list = b.journal.list ++ b.archive.list } };

    ghost invariant = { λ b. b.archive.party ≡ b.journal.party };
}

impl<N: Serving> BothMarks<N> {
    /// Those of a party that has made no mark.
    pub(crate) fn new(journal: MarkPass<N>, archive: MarkPass<OfArchive<N>>) -> BothMarks<N>
        requires party { archive.party ≡ journal.party }
        requires none { (journal.list ≡ []) × (archive.list ≡ []) }
        ensures { result ≡ journal }
    {
        BothMarks { journal, archive }
    }

    /// Whether the party has made a mark.
    pub fn has_marks(&self) -> bool
        ensures { result ≡ has_marks self.now.party self.now.list }
    {
        self.journal.has_marks() || self.archive.has_marks()
    }
}
