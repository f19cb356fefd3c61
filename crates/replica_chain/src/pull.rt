//! Following the journal of another depot.

ghost use Rattle.std.specs.Prelude.{◌≡◌, ◌⊎◌, ◌+◌, ◌-◌, ◌≤◌, ◌<◌, ◌^◌, ◌++◌, [], ℕ, List, length, Err, IfOk, OnErr, OnOk};
ghost use Rattle.std.specs.Result.{IfErr};
ghost use Rattle.archive_file.specs.Archive.{Has, disk_of as archive_disk_of, used_of};
ghost use Rattle.depot_rows.specs.db_records.declared.change.Change.{Change as AnyChange};
ghost use Rattle.disk_journal.specs.Images.{Committed, HasEither, with_group};
ghost use Rattle.disk_journal.specs.Keeping.{KeepsOlder};
ghost use Rattle.disk_journal.specs.Stands.{IsStill, Stands, disk_of, group, nothing};
ghost use Rattle.journal_groups.specs.Causes.{GoesOn};
ghost use Rattle.journal_groups.specs.Groups.{IsGroup, group_text, mark, open_byte};
ghost use Rattle.journal_groups.specs.Reader.{BeginsAt};
ghost use Rattle.outside_api.specs.Disk.{Files};
ghost use Rattle.outside_api.specs.Link.{text_of};
ghost use Rattle.outside_api.specs.Moments.{LeavesOnly};
ghost use Rattle.outside_api.specs.Reaching.{Reaches};
ghost use Rattle.recovery.specs.Looking.{AreCauses, IsCause};
ghost use Rattle.recovery.specs.Pieces.{AreAllGood};
ghost use Rattle.depot_rows.specs.table_changes.Changed.{AllFitIn, rows_of};
ghost use Rattle.replica_chain.specs.Chronicle.{Chronicle};
ghost use Rattle.replica_chain.specs.Copying.{AreBrought, IfBadContent, IfNoBytes, IsAbsent, IsBadContent, IsFilled, IsOfBringing, KeepsContents, named_ends};
ghost use Rattle.replica_chain.specs.Ends.{KeepsScanned};
ghost use Rattle.replica_chain.specs.Masters.{GoesOnBehind, HasNoFewer, IsBehind, TellsGroups, Upstream};
ghost use Rattle.replica_chain.specs.Node.{CanFollow, IsNode, IsSettled};
ghost use Rattle.replica_chain.specs.Pulling.{HasFollowed, HasStopped, HasTakenGroup, HasTakenGroups, HasTakenPiece, IsCutShort, IsRefused, IsUntaken, IsUnread, IsWhereItWas};
ghost use Rattle.replica_chain.specs.declared.fault.NodeFault.TheVariants as faults;

use crate::contents::bring_contents;
use crate::fault::NodeFault;
use crate::feed::{check_rest, next_changes, tables_after};
use crate::node::Node;
use archive_file::Contents;
use depot_rows::paths::Text;
use depot_rows::records::Change;
use disk_journal::Scanned;
use journal_groups::{GroupReader, Moved};
use outside_api::{Disk, Fetched, Link};
use replica_pull::{joined, last_bytes};
use std::alloc::Global;
use std::mem::replace;

/// How many bytes of a journal are fetched at a time.
const PIECE: usize = 65_536;

/// How many bytes all generations may have together.
const MOST: u64 = 0x7FFF_FFFF_FFFF_FFFF;

impl<D: Disk> Node<D> {
    /// Copies the contents that a group names, checks them and counts them as used, and then commits its changes.
    fn commit_group<C: Contents>(
        &mut self,
        alloc: Global,
        contents: &mut C,
        changes: &[Change],
    ) -> Result<(), NodeFault>
        requires can { CanFollow D.says self.old }
        requires settled { IsSettled D.says self.old }
        ensures filled { IsFilled D.says (C.tells contents.old)
            (C.tells contents.new) self.old.archive self.new.archive }
        ensures brought { OnOk result (AreBrought D.says self.new.archive changes.now) }
        ensures others { self.new ≡ record self.old { link = self.new.link; archive = self.new.archive } }
        // The group is behind what was committed; or it isn't, or is in doubt, with its contents in the archive.
        ensures committed { (was : Committed) → Stands D.says self.old.link.journal was nothing →
            OnOk result (Stands D.says self.new.link.journal (with_group was (group_text (length was.groups + 1) changes.now)) nothing) }
        ensures uncommitted { (was : Committed) → Stands D.says self.old.link.journal was nothing →
            OnErr result (IsStill D.says self.old.link.journal self.new.link.journal was
            ⊎ (Stands D.says self.new.link.journal was (group (group_text (length was.groups + 1) changes.now)) × AreBrought D.says self.new.archive changes.now)) }
        ensures any_moment { (was : Committed) → Stands D.says self.old.link.journal was nothing →
            LeavesOnly D.says (disk_of self.old.link.journal) (disk_of self.new.link.journal)
            (HasEither was (with_group was (group_text (length was.groups + 1) changes.now))) }
        ensures older { (older : List (List (List ℕ))) → KeepsOlder D.says self.old.link.journal older →
            KeepsOlder D.says self.new.link.journal older }
        ensures scanned { KeepsScanned D.says self.old.link self.new.link }
        ensures absent { IfNoBytes result (λ place. (bytes : List ℕ) → C.tells contents.new bytes →
            IsAbsent bytes (used_of self.new.archive) (named_ends changes.now) place) }
        ensures bad { IfBadContent result (λ place. (files : Files) →
            D.says.seen (archive_disk_of self.new.archive) files → IsBadContent (files 0) changes.now place) }
        ensures only { IfErr result IsOfBringing }
        ensures contents_reached { Reaches C.keeps contents.old contents.new }
        ensures contents_cause { IsCause (C.faults contents.old) (C.faults contents.new)
            (result ≡ Err faults.ContentsFailed) }
        ensures cause { AreCauses (D.says.faults (disk_of self.old.link.journal))
            (D.says.faults (disk_of self.new.link.journal)) (D.says.faults (archive_disk_of self.old.archive))
            (D.says.faults (archive_disk_of self.new.archive)) (result ≡ Err faults.DiskFault) }
    {
        bring_contents(alloc, contents, &mut self.archive, changes)?;
        let prepared = self.link.journal.prepare(alloc, changes)?;
        self.link.scanned = Scanned::nothing();
        self.link.journal.commit(prepared)?;
        Ok(())
    }

    /// Takes a group, whose records end at a place of the generation's text: copies the contents that it names, checks
    /// those of its revisions, and commits its changes.
    fn take_group<C: Contents>(
        &mut self,
        alloc: Global,
        contents: &mut C,
        changes: &[Change],
        end: u64,
    ) -> Result<(), NodeFault>
        requires can { CanFollow D.says self.old }
        requires settled { IsSettled D.says self.old }
        requires is_group { IsGroup changes.now }
        requires end { end ≡ self.old.at + (5 + length (group_text self.old.number changes.now)) }
        requires rest { self.old.rest ≡ [] }
        requires room { self.old.before + end < 2 ^ 63 }
        ensures can { CanFollow D.says self.new }
        ensures settled { OnOk result (IsSettled D.says self.new) }
        ensures rest { self.new.rest ≡ [] }
        ensures taken { OnOk result (HasTakenGroup self.old self.new changes.now end) }
        ensures kept { OnErr result (IsWhereItWas self.old self.new) }
        ensures refused { IfErr result (IsRefused D.says (C.tells contents.new) self.old self.new changes.now end) }
        ensures node { (c : Chronicle) → IsNode D.says self.old c → HasNoFewer D.says self.new c }
        ensures keeps { KeepsContents D.says self.old.archive self.new.archive }
        // Where it is the next group upstream, the node stays behind that.
        ensures behind { (c : Chronicle) (up : Upstream) → C.tells contents.old up.bytes →
            IsBehind D.says self.old c up →
            Has (text_of up.texts (length c.closed)) (record { at = self.old.at; length = end - self.old.at })
            (mark open_byte ++ group_text self.old.number changes.now) →
            GoesOnBehind D.says self.old self.new c up (λ texts. texts ≡ up.texts) (C.tells contents.new) }
        ensures contents_reached { Reaches C.keeps contents.old contents.new }
        ensures contents_cause { IsCause (C.faults contents.old) (C.faults contents.new)
            (result ≡ Err faults.ContentsFailed) }
        ensures cause { AreCauses (D.says.faults (disk_of self.old.link.journal))
            (D.says.faults (disk_of self.new.link.journal)) (D.says.faults (archive_disk_of self.old.archive))
            (D.says.faults (archive_disk_of self.new.archive)) (result ≡ Err faults.DiskFault) }
    {
        let tables = tables_after(alloc, &self.tables, changes, end)?;
        match self.commit_group(alloc, contents, changes) {
            Ok(()) => {
                self.tables = tables;
                self.at = end;
                self.number += 1;
                self.changes += 1;
                Ok(())
            }
            Err(fault) => {
                drop(tables);
                Err(fault)
            }
        }
    }

    /// Takes whole groups one after another, until what is left may still become one, and its records that are there
    /// fit. It answers how many it took.
    fn take_groups<C: Contents>(
        &mut self,
        alloc: Global,
        contents: &mut C,
        reader: &mut GroupReader,
    ) -> Result<u64, NodeFault>
        requires can { CanFollow D.says self.old }
        requires settled { IsSettled D.says self.old }
        requires at { reader.old.at ≡ self.old.at }
        requires number { reader.old.number ≡ self.old.number }
        requires rest { self.old.rest ≡ [] }
        requires room { self.old.before + self.old.at + length reader.old.left < 2 ^ 63 }
        ensures can { CanFollow D.says self.new }
        ensures settled { OnOk result (IsSettled D.says self.new) }
        ensures rest { self.new.rest ≡ [] }
        ensures taken { IfOk result (λ count. (groups : List (List AnyChange)) ×
            ((count ≡ length groups) × HasTakenGroups self.old self.new reader.old groups reader.new)) }
        ensures waits { OnOk result (GoesOn reader.new.number reader.new.left) }
        ensures fit { OnOk result (AreAllGood (AllFitIn (rows_of self.new.tables)) (BeginsAt reader.new.number reader.new.at reader.new.left)) }
        ensures cut_short { IfErr result (IsCutShort D.says (C.tells contents.new) self.old self.new reader.old) }
        ensures node { (c : Chronicle) → IsNode D.says self.old c → HasNoFewer D.says self.new c }
        ensures keeps { KeepsContents D.says self.old.archive self.new.archive }
        // Where what the reader has stands upstream behind the node, the node stays behind that, and what is left
        // stands there behind it.
        ensures behind { (c : Chronicle) (up : Upstream) → C.tells contents.old up.bytes →
            IsBehind D.says self.old c up →
            Has (text_of up.texts (length c.closed))
            (record { at = reader.old.at; length = length reader.old.left }) reader.old.left →
            GoesOnBehind D.says self.old self.new c up (λ texts. texts ≡ up.texts) (C.tells contents.new) }
        ensures contents_reached { Reaches C.keeps contents.old contents.new }
        ensures contents_cause { IsCause (C.faults contents.old) (C.faults contents.new)
            (result ≡ Err faults.ContentsFailed) }
        ensures cause { AreCauses (D.says.faults (disk_of self.old.link.journal))
            (D.says.faults (disk_of self.new.link.journal)) (D.says.faults (archive_disk_of self.old.archive))
            (D.says.faults (archive_disk_of self.new.archive)) (result ≡ Err faults.DiskFault) }
    {
        let mut count = 0u64;
        while let Some(changes) = next_changes(alloc, reader, &self.tables)? {
            self.take_group(alloc, contents, changes.as_slice(), reader.reached())?;
            count += 1;
        }
        check_rest(alloc, reader, &self.tables)?;
        Ok(count)
    }

    /// Takes a piece of the generation's text.
    fn take_piece<C: Contents>(
        &mut self,
        alloc: Global,
        contents: &mut C,
        piece: &[u8],
    ) -> Result<u64, NodeFault>
        requires can { CanFollow D.says self.old }
        requires settled { IsSettled D.says self.old }
        requires most { length piece.now ≤ 65536 }
        ensures can { CanFollow D.says self.new }
        ensures taken { IfOk result (HasTakenPiece self.old self.new piece.now) }
        ensures untaken { IfErr result (IsUntaken D.says (C.tells contents.new) self.old self.new piece.now) }
        ensures node { (c : Chronicle) → IsNode D.says self.old c → HasNoFewer D.says self.new c }
        ensures keeps { KeepsContents D.says self.old.archive self.new.archive }
        // Where the piece stands upstream behind the rest, the node stays behind that.
        ensures behind { (c : Chronicle) (up : Upstream) → C.tells contents.old up.bytes →
            IsBehind D.says self.old c up →
            Has (text_of up.texts (length c.closed))
            (record { at = self.old.at + length self.old.rest; length = length piece.now }) piece.now →
            GoesOnBehind D.says self.old self.new c up (λ texts. texts ≡ up.texts) (C.tells contents.new) }
        ensures contents_reached { Reaches C.keeps contents.old contents.new }
        ensures contents_cause { IsCause (C.faults contents.old) (C.faults contents.new)
            (result ≡ Err faults.ContentsFailed) }
        ensures cause { AreCauses (D.says.faults (disk_of self.old.link.journal))
            (D.says.faults (disk_of self.new.link.journal)) (D.says.faults (archive_disk_of self.old.archive))
            (D.says.faults (archive_disk_of self.new.archive)) (result ≡ Err faults.DiskFault) }
    {
        let rest = replace(&mut self.rest, Text::new(alloc));
        let size = (rest.len() + piece.len()) as u64;
        if size > MOST - self.before - self.at {
            return Err(NodeFault::BadFeed(self.at + size));
        }
        let text = joined(alloc, rest.as_bytes(), piece)?;
        let mut reader = GroupReader::new(text, self.at, self.number);
        let count = self.take_groups(alloc, contents, &mut reader)?;
        self.rest = last_bytes(alloc, rest.as_bytes(), piece, reader.waiting())?;
        Ok(count)
    }

    /// Fetches where the node awaits its next piece, through a buffer, and follows.
    fn pull_into<L: Link, C: Contents>(
        &mut self,
        alloc: Global,
        link: &mut L,
        contents: &mut C,
        buffer: &mut [u8],
    ) -> Result<Moved, NodeFault>
        requires can { CanFollow D.says self.old }
        requires settled { IsSettled D.says self.old }
        requires room { 0 < length buffer.old }
        requires most { length buffer.old ≤ 65536 }
        ensures can { CanFollow D.says self.new }
        ensures followed { IfOk result (HasFollowed L.says link.new self.old self.new) }
        ensures stopped { IfErr result (λ fault. IsUnread self.old self.new fault ⊎
            HasStopped D.says L.says (C.tells contents.new) link.new self.old self.new fault) }
        ensures node { (c : Chronicle) → IsNode D.says self.old c → HasNoFewer D.says self.new c }
        ensures keeps { KeepsContents D.says self.old.archive self.new.archive }
        ensures behind { (c : Chronicle) (up : Upstream) → L.says.tells link.old up.texts →
            C.tells contents.old up.bytes → TellsGroups (L.says.tells link.new) → IsBehind D.says self.old c up →
            GoesOnBehind D.says self.old self.new c up (L.says.tells link.new) (C.tells contents.new) }
        ensures link_reached { Reaches L.says.keeps link.old link.new }
        ensures link_cause { IsCause (L.says.faults link.old) (L.says.faults link.new) (result ≡ Err faults.LinkFault) }
        ensures contents_reached { Reaches C.keeps contents.old contents.new }
        ensures contents_cause { IsCause (C.faults contents.old) (C.faults contents.new)
            (result ≡ Err faults.ContentsFailed) }
        ensures cause { AreCauses (D.says.faults (disk_of self.old.link.journal))
            (D.says.faults (disk_of self.new.link.journal)) (D.says.faults (archive_disk_of self.old.archive))
            (D.says.faults (archive_disk_of self.new.archive)) (result ≡ Err faults.DiskFault) }
    {
        let awaited = self.at + self.rest.len() as u64;
        let generation = self.link.journal.generation();
        let fetched = link.fetch(generation, awaited, buffer)?;
        match fetched {
            Fetched::End => Ok(Moved::Nothing),
            Fetched::Next => {
                self.pass(alloc)?;
                Ok(Moved::Next)
            }
            Fetched::Bytes(count) => {
                let changes = self.take_piece(alloc, contents, &buffer[..count])?;
                Ok(Moved::Taken {
                    bytes: count as u64,
                    changes,
                })
            }
        }
    }

    /// Settles what is in doubt, and follows.
    fn pull_on<L: Link, C: Contents>(
        &mut self,
        alloc: Global,
        link: &mut L,
        contents: &mut C,
    ) -> Result<Moved, NodeFault>
        requires can { CanFollow D.says self.old }
        ensures can { CanFollow D.says self.new }
        ensures followed { IfOk result (HasFollowed L.says link.new self.old self.new) }
        ensures stopped { IfErr result (λ fault. IsUnread self.old self.new fault ⊎
            HasStopped D.says L.says (C.tells contents.new) link.new self.old self.new fault) }
        ensures node { (c : Chronicle) → IsNode D.says self.old c → HasNoFewer D.says self.new c }
        ensures keeps { KeepsContents D.says self.old.archive self.new.archive }
        ensures behind { (c : Chronicle) (up : Upstream) → L.says.tells link.old up.texts →
            C.tells contents.old up.bytes → TellsGroups (L.says.tells link.new) → IsBehind D.says self.old c up →
            GoesOnBehind D.says self.old self.new c up (L.says.tells link.new) (C.tells contents.new) }
        ensures link_reached { Reaches L.says.keeps link.old link.new }
        ensures link_cause { IsCause (L.says.faults link.old) (L.says.faults link.new) (result ≡ Err faults.LinkFault) }
        ensures contents_reached { Reaches C.keeps contents.old contents.new }
        ensures contents_cause { IsCause (C.faults contents.old) (C.faults contents.new)
            (result ≡ Err faults.ContentsFailed) }
        ensures cause { AreCauses (D.says.faults (disk_of self.old.link.journal))
            (D.says.faults (disk_of self.new.link.journal)) (D.says.faults (archive_disk_of self.old.archive))
            (D.says.faults (archive_disk_of self.new.archive)) (result ≡ Err faults.DiskFault) }
    {
        let mut piece = vec![in alloc; 0u8; PIECE]?;
        self.link.scanned = Scanned::nothing();
        self.link.journal.settle()?;
        let moved = self.pull_into(alloc, link, contents, piece.as_mut_slice());
        moved
    }

    /// Fetches the next piece of the journal that the node follows, of at most 65,536 bytes, and takes it: of each
    /// group that is whole now the contents are copied that it names, those of its revisions are checked, and its
    /// changes are committed; a rest is kept. Where the generation is closed the next one begins, with a checkpoint of
    /// the rows. After an error the groups that were taken are committed, and the text behind them is given up.
    pub fn pull<L: Link, C: Contents>(
        &mut self,
        alloc: Global,
        link: &mut L,
        contents: &mut C,
    ) -> Result<Moved, NodeFault>
        requires can { CanFollow D.says self.old }
        ensures can { CanFollow D.says self.new }

        // What was done is what the link answered, of the journal as its depot had it then.
        ensures followed { IfOk result (HasFollowed L.says link.new self.old self.new) }
        // Why it stopped, and how far it had come.
        ensures stopped { IfErr result (λ fault. IsUnread self.old self.new fault ⊎
            HasStopped D.says L.says (C.tells contents.new) link.new self.old self.new fault) }
        ensures given_up { OnErr result (self.new.rest ≡ []) }

        // It has whole changes, no fewer than before.
        ensures node { (c : Chronicle) → IsNode D.says self.old c → HasNoFewer D.says self.new c }
        // Its archive keeps what was used of it, at every moment.
        ensures keeps { KeepsContents D.says self.old.archive self.new.archive }
        // Behind a depot that the link and the contents tell it stays behind that depot, at every moment.
        ensures behind { (c : Chronicle) (up : Upstream) → L.says.tells link.old up.texts →
            C.tells contents.old up.bytes → TellsGroups (L.says.tells link.new) → IsBehind D.says self.old c up →
            GoesOnBehind D.says self.old self.new c up (L.says.tells link.new) (C.tells contents.new) }

        // What it follows is left as calls on it leave it.
        ensures link_reached { Reaches L.says.keeps link.old link.new }
        ensures contents_reached { Reaches C.keeps contents.old contents.new }

        ensures link_cause { IsCause (L.says.faults link.old) (L.says.faults link.new) (result ≡ Err faults.LinkFault) }
        ensures contents_cause { IsCause (C.faults contents.old) (C.faults contents.new)
            (result ≡ Err faults.ContentsFailed) }
        ensures cause { AreCauses (D.says.faults (disk_of self.old.link.journal))
            (D.says.faults (disk_of self.new.link.journal)) (D.says.faults (archive_disk_of self.old.archive))
            (D.says.faults (archive_disk_of self.new.archive)) (result ≡ Err faults.DiskFault) }
    {
        match self.pull_on(alloc, link, contents) {
            Ok(moved) => Ok(moved),
            Err(fault) => {
                self.rest = Text::new(alloc);
                Err(fault)
            }
        }
    }
}
