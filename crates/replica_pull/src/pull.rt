//! Following a master's journal.

ghost use Rattle.std.specs.Prelude.{◌≡◌, ◌⊎◌, ◌≤◌, ◌<◌, ◌+◌, ◌-◌, ◌^◌, ◌++◌, ℕ, List, [], length, drop, Err, IfOk, OnErr};
ghost use Rattle.std.specs.Result.{IfErr};
ghost use Rattle.depot_rows.specs.db_records.declared.change.Change.{Change};
ghost use Rattle.outside_api.specs.Link.{IsEarlier, Answers, Fits};
ghost use Rattle.outside_api.specs.Reaching.{Reaches};
ghost use Rattle.outside_api.specs.declared.link.Fetched.{Fetched};
ghost use Rattle.outside_api.specs.declared.link.Fetched.TheVariants.{Next};
ghost use Rattle.recovery.specs.Looking.{IsCause};
ghost use Rattle.depot_rows.specs.table_changes.Changed.{rows_of, changed_in};
ghost use Rattle.depot_rows.specs.table_changes.Drafts.{rows_of_draft};
ghost use Rattle.journal_groups.specs.Reader.{State};
ghost use Rattle.replica_pull.specs.Feed.{AreTaken, HasMadeOne, IfBadFeed, IsOfFeed};
ghost use Rattle.replica_pull.specs.Prefix.{HasPrefix, IsGoodJournal};
ghost use Rattle.replica_pull.specs.Replica.{with_piece, Waits, IsNew, HasTakenPiece, HasPassed, HasMoved, IsBadPiece, IsStopped, IsUnread, beginning, telling};
ghost use Rattle.replica_pull.specs.declared.fault.PullFault.TheVariants as faults;

use crate::fault::PullFault;
use crate::feed::{Taken, make_one, take_feed};
use crate::replica::Replica;
use depot_rows::changes::TablesDraft;
use depot_rows::model::Filter;
use depot_rows::paths::Text;
use depot_rows::records::{Change, CounterRecord, Op, Record};
use depot_rows::tables::Tables;
use journal_groups::{GroupReader, Moved};
use outside_api::{Fetched, Link};
use std::alloc::{AllocError, Global};

/// How many bytes of a journal are fetched at a time.
const PIECE: usize = 65_536;

/// How many bytes all generations may have together.
const MOST: u64 = 0x7FFF_FFFF_FFFF_FFFF;

/// The last generation that there can be.
const LAST: u32 = 4095;

/// The bytes of a rest and of the piece behind it. The one error is want of memory.
pub fn joined(alloc: Global, rest: &[u8], piece: &[u8]) -> Result<Text, AllocError>
    ensures { IfOk result (λ text. text ≡ rest.now ++ piece.now) }
{
    let mut text = Text::from_bytes(alloc, rest)?;
    text.append(piece)?;
    Ok(text)
}

/// The last bytes of both, so many. The one error is want of memory.
pub fn last_bytes(
    alloc: Global,
    rest: &[u8],
    piece: &[u8],
    count: usize,
) -> Result<Text, AllocError>
    requires { count ≤ length (rest.now ++ piece.now) }
    ensures { IfOk result (λ text. text ≡ drop (length (rest.now ++ piece.now) - count) (rest.now ++ piece.now)) }
{
    let text = joined(alloc, rest, piece)?;
    let (_, last) = text.as_bytes().split_at(text.len() - count);
    let copy = Text::from_bytes(alloc, last)?;
    Ok(copy)
}

/// A change that puts the counter that tells the generation.
fn counter_change(alloc: Global, op: Op, generation: u32) -> Result<Change, AllocError>
    ensures { IfOk result (λ change. change ≡ telling op generation) }
{
    let name = Text::from_bytes(alloc, b"journal")?;
    Ok(Change {
        op,
        row: Record::Counter(CounterRecord {
            name,
            value: generation as u64,
        }),
    })
}

/// Makes it, if it fits.
fn tell(alloc: Global, op: Op, generation: u32, draft: &mut TablesDraft) -> Result<bool, AllocError>
    ensures made { IfOk result (HasMadeOne (rows_of_draft draft.old) (rows_of_draft draft.new) (telling op generation)) }
    ensures end { draft.new.archive_end ≡ draft.old.archive_end }
{
    let change = counter_change(alloc, op, generation)?;
    let made = make_one(alloc, draft, &change)?;
    Ok(made)
}

/// Puts the counter that tells the generation, or puts it in the place of the one that is there.
#[tactic(auto, using(crate::proofs::Generations::first_told, crate::proofs::Generations::second_told))]
fn tell_generation(
    alloc: Global,
    generation: u32,
    draft: &mut TablesDraft,
) -> Result<(), AllocError>
    ensures rows { IfOk result (λ done. rows_of_draft draft.new ≡
        changed_in (rows_of_draft draft.old) (beginning generation)) }
    ensures end { draft.new.archive_end ≡ draft.old.archive_end }
{
    let put = tell(alloc, Op::Put, generation, draft)?;
    if put {
        return Ok(());
    }
    tell(alloc, Op::Replace, generation, draft)?;
    Ok(())
}

/// The tables with the counter that tells the generation. The one error is want of memory.
pub fn begin_generation(
    alloc: Global,
    tables: &Tables,
    generation: u32,
) -> Result<Tables, AllocError>
    ensures rows { IfOk result (λ made. rows_of made ≡ changed_in (rows_of tables.now) (beginning generation)) }
    ensures end { IfOk result (λ made. made.archive_end ≡ tables.now.archive_end) }
{
    let mut draft = TablesDraft::of(alloc, tables)?;
    tell_generation(alloc, generation, &mut draft)?;
    let made = draft.finish(alloc)?;
    Ok(made)
}

/// What was taken of a piece, and the rest behind it.
#[derive(Drop)]
struct Fed {
    taken: Taken,
    rest: Text,
}

impl Replica {
    ghost use Rattle.depot_rows.specs.depot_model.declared.filter.FilterRule.{FilterRule};

    /// A replica that has taken nothing yet. The one error is want of memory.
    #[tactic(auto, using(crate::proofs::Generations::empty_rows))]
    pub fn with_filter(alloc: Global, filter: Filter) -> Result<Replica, AllocError>
        ensures { IfOk result (IsNew filter) }
    {
        let tables = Tables::empty(alloc)?;
        Ok(Replica {
            filter,
            tables,
            generation: 0,
            at: 0,
            rest: Text::new(alloc),
            number: 1,
            taken: 0,
            changes: 0,
        })
    }

    /// How far the replica is: its generation, and how many changes it has taken.
    pub fn position(&self) -> (u32, u64)
        ensures { result ≡ (self.now.generation, self.now.changes) }
    {
        (self.generation, self.changes)
    }

    /// Where the next piece stands in the master's journal: its generation, and its place in the generation's text, in
    /// bytes from 0.
    pub fn awaits(&self) -> (u32, u64)
        ensures { result ≡ (self.now.generation, self.now.at) }
    {
        (self.generation, self.at)
    }

    /// The rows, cut to the filter.
    pub fn tables(&self) -> &Tables
        ensures { result.now ≡ self.now.tables }
    {
        &self.tables
    }

    /// Takes what is whole of the rest and a piece behind it.
    fn feed(&self, alloc: Global, piece: &[u8]) -> Result<Fed, PullFault>
        requires { length piece.now ≤ 65536 }
        ensures fed { IfOk result (λ fed. (groups : List (List Change)) ×
            ((now : State) × ((fed.taken.groups ≡ length groups) × ((now.left ≡ fed.rest) ×
            (AreTaken self.now.filter (with_piece self.now piece.now) (rows_of self.now.tables) groups now (rows_of fed.taken.tables) × Waits self.now.filter (rows_of fed.taken.tables) now))))) }
        ensures room { IfOk result (λ fed. self.now.taken + length piece.now < 2 ^ 63) }
        ensures bad { IfBadFeed result (IsBadPiece self.now piece.now) }
        ensures only { IfErr result IsOfFeed }
    {
        if piece.len() as u64 > MOST - self.taken {
            return Err(PullFault::BadFeed(self.at + piece.len() as u64));
        }
        let text = joined(alloc, self.rest.as_bytes(), piece)?;
        let mut reader = GroupReader::new(text, self.at - self.rest.len() as u64, self.number);
        let taken = take_feed(alloc, &self.filter, &self.tables, &mut reader)?;
        let rest = last_bytes(alloc, self.rest.as_bytes(), piece, reader.waiting())?;
        Ok(Fed { taken, rest })
    }

    /// Takes a piece of the generation's text.
    fn take_piece(&mut self, alloc: Global, piece: &[u8]) -> Result<u64, PullFault>
        requires { length piece.now ≤ 65536 }
        ensures taken { IfOk result (λ count. HasTakenPiece self.old piece.now count self.new) }
        ensures kept { OnErr result (self.new ≡ self.old) }
        ensures bad { IfBadFeed result (IsBadPiece self.old piece.now) }
        ensures only { IfErr result IsOfFeed }
    {
        let Fed { taken, rest } = self.feed(alloc, piece)?;
        let Taken { tables, groups } = taken;
        self.tables = tables;
        self.rest = rest;
        self.at += piece.len() as u64;
        self.taken += piece.len() as u64;
        self.number += groups;
        self.changes += groups;
        Ok(groups)
    }

    /// Passes to the next generation.
    fn pass(&mut self, alloc: Global) -> Result<(), PullFault>
        ensures passed { IfOk result (λ done. HasPassed self.old self.new) }
        ensures kept { OnErr result (self.new ≡ self.old) }
        ensures stopped { IfErr result (IsStopped self.old Next []) }
    {
        if self.generation >= LAST {
            return Err(PullFault::NoGeneration);
        }
        let next = self.generation + 1;
        let tables = begin_generation(alloc, &self.tables, next)?;
        self.tables = tables;
        self.rest = Text::new(alloc);
        self.generation = next;
        self.at = 0;
        self.number = 1;
        self.changes += 1;
        Ok(())
    }

    /// Does what was fetched where it awaits its next piece, at the front of a buffer: the changes of the groups that
    /// are whole now are made, cut to the filter, and a rest is kept; or the next generation begins. After an error the
    /// replica is as it was.
    pub fn follow(
        &mut self,
        alloc: Global,
        fetched: Fetched,
        buffer: &[u8],
    ) -> Result<Moved, PullFault>
        requires fits { Fits fetched (length buffer.now) }
        requires piece { length buffer.now ≤ 65536 }
        ensures moved { IfOk result (HasMoved self.old self.new fetched buffer.now) }
        ensures kept { OnErr result (self.new ≡ self.old) }
        ensures stopped { IfErr result (IsStopped self.old fetched buffer.now) }
    {
        match fetched {
            Fetched::End => Ok(Moved::Nothing),
            Fetched::Next => {
                self.pass(alloc)?;
                Ok(Moved::Next)
            }
            Fetched::Bytes(count) => {
                let changes = self.take_piece(alloc, &buffer[..count])?;
                Ok(Moved::Taken {
                    bytes: count as u64,
                    changes,
                })
            }
        }
    }

    /// The same through a buffer, which isn't empty.
    fn pull_into<L: Link>(
        &mut self,
        alloc: Global,
        link: &mut L,
        buffer: &mut [u8],
    ) -> Result<Moved, PullFault>
        requires room { 0 < length buffer.old }
        requires most { length buffer.old ≤ 65536 }
        // What was done is what the link answered, of the journal as its master had it then.
        ensures moved { IfOk result (λ moved. (fetched : Fetched) ×
            ((piece : List ℕ) × (HasMoved self.old self.new fetched piece moved × (Fits fetched 65536 ×
            ((now : List (List ℕ)) → L.says.tells link.new now → (earlier : List (List ℕ)) × (IsEarlier earlier now × Answers earlier self.old.generation self.old.at fetched piece)))))) }
        ensures kept { OnErr result (self.new ≡ self.old) }
        ensures never_falls { self.old.changes ≤ self.new.changes }
        // Why nothing was done.
        ensures stopped { IfErr result (λ fault. IsUnread fault ⊎
            ((fetched : Fetched) × ((piece : List ℕ) × (IsStopped self.old fetched piece fault ×
            ((now : List (List ℕ)) → L.says.tells link.new now → (earlier : List (List ℕ)) × (IsEarlier earlier now × Answers earlier self.old.generation self.old.at fetched piece)))))) }
        ensures cause { IsCause (L.says.faults link.old) (L.says.faults link.new) (result ≡ Err faults.LinkFault) }
        ensures grows { (before : List (List ℕ)) → L.says.tells link.old before →
            (now : List (List ℕ)) × (L.says.tells link.new now × ((now ≡ before) ⊎ IsEarlier before now)) }
        ensures reached { Reaches L.says.keeps link.old link.new }
    {
        let fetched = link.fetch(self.generation, self.at, buffer)?;
        let moved = self.follow(alloc, fetched, buffer);
        moved
    }

    /// Fetches the next piece of the master's journal, of at most 65,536 bytes, and takes it: the changes of
    /// the groups that are whole now are made, cut to the filter, and a rest is kept. Where the generation
    /// is closed the next one begins. After an error the replica is as it was.
    pub fn pull<L: Link>(&mut self, alloc: Global, link: &mut L) -> Result<Moved, PullFault>
        // What was done is what the link answered, of the journal as its master had it then.
        ensures moved { IfOk result (λ moved. (fetched : Fetched) ×
            ((piece : List ℕ) × (HasMoved self.old self.new fetched piece moved × (Fits fetched 65536 ×
            ((now : List (List ℕ)) → L.says.tells link.new now → (earlier : List (List ℕ)) × (IsEarlier earlier now × Answers earlier self.old.generation self.old.at fetched piece)))))) }
        ensures kept { OnErr result (self.new ≡ self.old) }
        ensures never_falls { self.old.changes ≤ self.new.changes }
        // Why nothing was done.
        ensures stopped { IfErr result (λ fault. IsUnread fault ⊎
            ((fetched : Fetched) × ((piece : List ℕ) × (IsStopped self.old fetched piece fault ×
            ((now : List (List ℕ)) → L.says.tells link.new now → (earlier : List (List ℕ)) × (IsEarlier earlier now × Answers earlier self.old.generation self.old.at fetched piece)))))) }
        ensures cause { IsCause (L.says.faults link.old) (L.says.faults link.new) (result ≡ Err faults.LinkFault) }
        // A master's journal is never a bad feed to a replica that has followed it.
        ensures good { (rules : List FilterRule) (before : List (List ℕ)) → L.says.tells link.old before →
            HasPrefix rules before self.old →
            ((now : List (List ℕ)) → L.says.tells link.new now →
            (generations : List (List (List Change))) × IsGoodJournal now generations) →
            IfBadFeed result (λ place. ⊥) }
        ensures grows { (before : List (List ℕ)) → L.says.tells link.old before →
            (now : List (List ℕ)) × (L.says.tells link.new now × ((now ≡ before) ⊎ IsEarlier before now)) }
        // The link is left as calls of it leave it.
        ensures reached { Reaches L.says.keeps link.old link.new }
    {
        let mut piece = vec![in alloc; 0u8; PIECE]?;
        let moved = self.pull_into(alloc, link, piece.as_mut_slice());
        moved
    }
}
