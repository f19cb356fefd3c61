//! Passing to the next generation.

ghost use Rattle.std.specs.Prelude.{◌≡◌, ◌⊎◌, ◌+◌, ◌<◌, ◌∷◌, ◌++◌, ℕ, List, [], Err, OnOk, IsErr};
ghost use Rattle.std.specs.Result.{IfErr};
ghost use Rattle.checkpoint_file.specs.Checkpoint.{IsCheckpointOf, checkpoint_text, puts_of};
ghost use Rattle.depot_rows.specs.table_changes.Changed.{rows_of};
ghost use Rattle.disk_journal.specs.Images.{Committed, HasEither, with_generation};
ghost use Rattle.disk_journal.specs.Keeping.{KeepsOlder};
ghost use Rattle.disk_journal.specs.Stands.{IsStill, Stands, disk_of, generation_of_journal, nothing, opening};
ghost use Rattle.journal_groups.specs.Groups.{AreRecords};
ghost use Rattle.outside_api.specs.Link.{IsEarlier};
ghost use Rattle.outside_api.specs.Moments.{LeavesOnly};
ghost use Rattle.recovery.specs.Looking.{IsCause};
ghost use Rattle.replica_chain.specs.Chronicle.{Chronicle, texts_of, with_beginning};
ghost use Rattle.replica_chain.specs.Masters.{GoesOnBehind, HasNoFewer, IsBehind, Upstream};
ghost use Rattle.replica_chain.specs.Node.{CanFollow, IsNode, IsSettled};
ghost use Rattle.replica_chain.specs.Pulling.{HasPassed, IsUnpassed};
ghost use Rattle.replica_chain.specs.declared.fault.NodeFault.TheVariants as faults;

use crate::fault::NodeFault;
use crate::node::Node;
use checkpoint_file::{CheckpointFault, print_generation, write_generation};
use depot_rows::paths::Text;
use depot_rows::tables::Tables;
use disk_journal::{Journal, Scanned};
use outside_api::Disk;
use replica_pull::begin_generation;
use std::alloc::Global;

/// The generation behind which there is none.
const LAST: u32 = 4095;

/// Begins the next generation of a journal with the rows of these tables.
fn write_next<D: Disk>(
    alloc: Global,
    tables: &Tables,
    journal: &mut Journal<D>,
    next: u32,
) -> Result<(), NodeFault>
    requires rest { (was : Committed) × Stands D.says journal.old was nothing }
    requires next { next ≡ generation_of_journal journal.old + 1 }
    requires last { generation_of_journal journal.old < 4095 }
    ensures generation { OnOk result (generation_of_journal journal.new ≡ next) }
    ensures ok { (was : Committed) → Stands D.says journal.old was nothing →
        OnOk result (Stands D.says journal.new (with_generation was (checkpoint_text next (rows_of tables.now))) nothing) }
    ensures err { (was : Committed) → Stands D.says journal.old was nothing → IsErr result →
        IsStill D.says journal.old journal.new was
        ⊎ (Stands D.says journal.new was (opening (checkpoint_text next (rows_of tables.now))) ×
        (AreRecords (puts_of (rows_of tables.now)) →
        IsCheckpointOf next (rows_of tables.now) (checkpoint_text next (rows_of tables.now)))) }
    // Where each row has a text, these are read again as the rows of the checkpoint.
    ensures checkpoint { AreRecords (puts_of (rows_of tables.now)) →
        OnOk result (IsCheckpointOf next (rows_of tables.now) (checkpoint_text next (rows_of tables.now))) }
    ensures any_moment { (was : Committed) → Stands D.says journal.old was nothing →
        LeavesOnly D.says (disk_of journal.old) (disk_of journal.new)
        (HasEither was (with_generation was (checkpoint_text next (rows_of tables.now)))) }
    ensures keeps { (older : List (List (List ℕ))) → KeepsOlder D.says journal.old older → IsErr result →
        KeepsOlder D.says journal.new older }
    ensures closes { (was : Committed) (older : List (List (List ℕ))) → Stands D.says journal.old was nothing →
        KeepsOlder D.says journal.old older → OnOk result (KeepsOlder D.says journal.new (older ++ was.groups ∷ [])) }
    ensures only { IfErr result (λ fault. (fault ≡ faults.DiskFault) ⊎ (fault ≡ faults.Memory)) }
    ensures cause { IsCause (D.says.faults (disk_of journal.old)) (D.says.faults (disk_of journal.new))
        (result ≡ Err faults.DiskFault) }
{
    let text = print_generation(alloc, tables, next)?;
    match write_generation(journal, &text) {
        Ok(_) => Ok(()),
        Err(CheckpointFault::NoGeneration) => Err(NodeFault::NoGeneration),
        Err(CheckpointFault::DiskFault) => Err(NodeFault::DiskFault),
    }
}

impl<D: Disk> Node<D> {
    /// Passes to the next generation: a checkpoint of the rows, with the counter that tells it.
    pub(crate) fn pass(&mut self, alloc: Global) -> Result<(), NodeFault>
        requires can { CanFollow D.says self.old }
        requires settled { IsSettled D.says self.old }
        ensures can { CanFollow D.says self.new }
        ensures passed { OnOk result (HasPassed self.old self.new) }
        ensures stopped { IfErr result (IsUnpassed self.old self.new) }
        ensures archive { self.new.archive ≡ self.old.archive }
        ensures node { (c : Chronicle) → IsNode D.says self.old c → HasNoFewer D.says self.new c }
        // Where its generation is closed upstream, it stays behind that.
        ensures behind { (c : Chronicle) (up : Upstream) → IsBehind D.says self.old c up →
            IsEarlier (texts_of (with_beginning c)) up.texts →
            GoesOnBehind D.says self.old self.new c up (λ texts. texts ≡ up.texts) (λ bytes. bytes ≡ up.bytes) }
        ensures cause { IsCause (D.says.faults (disk_of self.old.link.journal))
            (D.says.faults (disk_of self.new.link.journal)) (result ≡ Err faults.DiskFault) }
    {
        let generation = self.link.journal.generation();
        if generation >= LAST {
            return Err(NodeFault::NoGeneration);
        }
        let tables = begin_generation(alloc, &self.tables, generation + 1)?;
        self.link.scanned = Scanned::nothing();
        match write_next(alloc, &tables, &mut self.link.journal, generation + 1) {
            Ok(()) => {
                self.tables = tables;
                self.rest = Text::new(alloc);
                self.before += self.at;
                self.at = 0;
                self.number = 1;
                self.changes += 1;
                Ok(())
            }
            Err(fault) => {
                drop(tables);
                Err(fault)
            }
        }
    }
}
