//! A link to the journal of a depot at work.
ghost use Rattle.std.specs.Prelude.{◌≡◌, ◌≤◌, ◌<◌, ◌+◌, ℕ, List, length, is_err, IfOk, Ok};
ghost use Rattle.outside_api.specs.Count.{HasCause};
ghost use Rattle.outside_api.specs.Link.{Answers, Fits};
ghost use Rattle.replica_turns.specs.Going.{one_if};
ghost use Rattle.shared_depot.specs.Link.{HasHeardPlaces, TellsAll, TellsJournal};

use crate::both_marks::BothMarks;
use crate::common::CommonDepot;
use crate::serving::Serving;
use crate::shared::SharedDepot;
use crate::written_journal::WrittenJournal;
use depot_commit::fetch_texts;
use locked_tables::{OrderWords, PartyPass};
use outside_api::{Disk, DiskFault, Failed, Fetched, Link};
use party_marks::{MarkPass, MarkWords, Marking, Marks};
use std::sync::Wait;

/// The journal of a depot that threads share, as a replica follows it. Each fetch takes the lock of the journal, and
/// that of the order for a moment: it falls between two commits, and the party of the link learns all places so far.
/// Where the journal's disk fails, the party makes a mark.
#[derive(Drop)]
pub struct DepotLink<'a, D: Disk, N: Serving, R: Wait> {
    depot: &'a SharedDepot<D, N>,
    rt: &'a R,
    pub(crate) pass: PartyPass<N>,
    pub(crate) marks: BothMarks<N>,
}

/// Makes a mark of a party where a fetch failed. Where there are as many marks as there can be, the party learns them
/// all.
fn tell_fetched<N: Marking>(
    words: &MarkWords<N>,
    all: &mut Marks<N>,
    pass: &mut MarkPass<N>,
    fetched: Result<Fetched, DiskFault>,
) -> Result<Fetched, Failed>
    ensures told { IfOk result (λ told. fetched ≡ Ok told) }
    ensures party { pass.new.party ≡ pass.old.party }
    ensures marked { length all.new.list ≤ length all.old.list + one_if (is_err fetched) }
    ensures none { length all.new.list ≡ 0 → length all.old.list + one_if (is_err fetched) ≡ 0 }
    ensures cause { HasCause (length pass.old.list) (length pass.new.list) result }
{
    match fetched {
        Ok(fetched) => Ok(fetched),
        Err(_) => {
            match all.make_room() {
                Ok(()) => all.mark(words, pass),
                Err(_) => all.tell(words, pass),
            }
            Err(Failed)
        }
    }
}

impl<D: Disk, N: Serving> CommonDepot<D, N> {
    /// A party learns all places so far.
    fn tell(&mut self, words: &OrderWords<N>, pass: &mut PartyPass<N>)
        ensures heard { HasHeardPlaces pass.old pass.new }
        ensures tells { TellsAll D.says N.end N.images N.begins N.masters pass.new.list }
    {
        self.order.tell(words, pass);
    }
}

impl<D: Disk, N: Serving> WrittenJournal<D, N> {
    /// Fetches for a party, and makes a mark of it where the journal's disk fails. Then the lock of the order is taken
    /// too, and the party learns all places so far.
    fn fetch<R: Wait>(
        &mut self,
        rt: &R,
        depot: &SharedDepot<D, N>,
        pass: &mut PartyPass<N>,
        marks: &mut BothMarks<N>,
        generation: u32,
        at: u64,
        buffer: &mut [u8],
    ) -> Result<Fetched, Failed>
        requires room { 0 < length buffer.old }
        ensures answers { (texts : List (List ℕ)) →
            TellsJournal D.says N.end N.images N.begins N.masters pass.new.list texts →
            IfOk result (λ fetched. Answers texts generation at fetched buffer.new) }
        ensures fits { IfOk result (λ fetched. Fits fetched (length buffer.old)) }
        ensures tells { TellsAll D.says N.end N.images N.begins N.masters pass.new.list }
        ensures heard { HasHeardPlaces pass.old pass.new }
        ensures marks_party { marks.new.party ≡ marks.old.party }
        ensures cause { HasCause (length marks.old.list) (length marks.new.list) result }
    {
        let fetched = fetch_texts(&mut self.journal, generation, at, buffer);
        let mut guard = depot.common.lock(rt);
        let held = &mut *guard;
        held.learn_journal(&depot.words, &mut self.lane);
        held.order.tell(&depot.words, pass);
        tell_fetched(
            &depot.mark_words,
            &mut self.marks,
            &mut marks.journal,
            fetched,
        )
    }
}

impl<D: Disk, N: Serving> SharedDepot<D, N> {
    /// A link to its journal for one of the parties, which gives the link what it knows, and learns all places so far.
    /// What the party has told so far of failed disks stays told.
    pub fn link<'a, R: Wait>(
        &'a self,
        rt: &'a R,
        mut pass: PartyPass<N>,
        marks: BothMarks<N>,
    ) -> DepotLink<'a, D, N, R>
        ensures tells { TellsAll D.says N.end N.images N.begins N.masters result.pass.list }
        ensures heard { HasHeardPlaces pass result.pass }
        ensures marks { result.marks ≡ marks }
    {
        let mut common = self.common.lock(rt);
        common.tell(&self.words, &mut pass);
        DepotLink {
            depot: self,
            rt,
            pass,
            marks,
        }
    }
}

impl<'a, D: Disk, N: Serving, R: Wait> DepotLink<'a, D, N, R> {
    /// Gives the party back what it knows.
    pub fn into_passes(self) -> (PartyPass<N>, BothMarks<N>)
        ensures { result ≡ (self.entry.pass, self.entry.marks) }
    {
        let DepotLink {
            depot: _,
            rt: _,
            pass,
            marks,
        } = self;
        (pass, marks)
    }
}

impl<'a, D: Disk, N: Serving, R: Wait> Link for DepotLink<'a, D, N, R> {
    ghost use Rattle.std.specs.Prelude.{length};
    ghost use Rattle.shared_depot.specs.Link.{HasHeardPlaces, TellsJournal};

    ghost says = { record {
      tells = λ link texts. TellsJournal D.says N.end N.images N.begins N.masters link.pass.list texts;
      faults = λ link. length link.marks.list;
      keeps = λ old new. HasHeardPlaces old.pass new.pass × (new.marks.party ≡ old.marks.party);
    } };

    fn fetch(&mut self, generation: u32, at: u64, buffer: &mut [u8]) -> Result<Fetched, Failed> {
        let mut journal = self.depot.journal.lock(self.rt);
        journal.fetch(
            self.rt,
            self.depot,
            &mut self.pass,
            &mut self.marks,
            generation,
            at,
            buffer,
        )
    }
}
