//! Following to the end.

ghost use Rattle.std.specs.Prelude.{◌≡◌, ◌⊎◌, Err, IfOk, OnOk};
ghost use Rattle.std.specs.Result.{IfErr};
ghost use Rattle.replica_chain.specs.Chronicle.{Chronicle};
ghost use Rattle.replica_chain.specs.Masters.{GoesOnBehindNode, HasNoFewer};
ghost use Rattle.replica_chain.specs.Node.{CanFollow, IsNode, files_of};
ghost use Rattle.depot_rows.specs.table_changes.Changed.{rows_of};
ghost use Rattle.depot_follow.specs.Following.{AgreeWith, AreVerified, HasStopped, HaveStopped, IsPosition, IsSoFar, TakesAll};
ghost use Rattle.depot_follow.specs.Opening.{NeverFalls, PairRose};
ghost use Rattle.depot_follow.specs.declared.ended.ChainCause.TheVariants as causes;

use crate::ended::ChainCause;
use crate::rows::same_rows;
use journal_groups::Moved;
use outside_api::Disk;
use replica_chain::Node;
use std::alloc::Global;

/// How far a node is that has all.
#[derive(Clone, Copy)]
pub(crate) struct Figures {
    /// Its generation.
    pub generation: u32,
    /// How many changes it has.
    pub changes: u64,
    /// How many contents it has, each of which was checked.
    pub verified: u64,
}

/// Pulls once. Where nothing more comes, which is so over no upstream that was opened and has more, the end is that of
/// want of memory.
fn pull_more<D: Disk>(alloc: Global, up: &mut Node<D>, node: &mut Node<D>) -> Result<(), ChainCause>
    requires can { CanFollow D.says node.old }
    ensures can { CanFollow D.says node.new }
    ensures behind { GoesOnBehindNode D.says up.old up.new node.old node.new }
    ensures no_fewer { (c : Chronicle) → IsNode D.says node.old c → HasNoFewer D.says node.new c }
    ensures stopped { IfErr result (HaveStopped D.says up.old node.old up.new node.new) }
    ensures up_never_falls { NeverFalls D.says (files_of up.old) (files_of up.new) }
    ensures node_never_falls { NeverFalls D.says (files_of node.old) (files_of node.new) }
    ensures cause { result ≡ Err causes.Fault →
        PairRose D.says (files_of up.old) (files_of up.new) ⊎ PairRose D.says (files_of node.old) (files_of node.new) }
{
    match node.pull(alloc, &mut up.link, &mut up.archive)? {
        Moved::Nothing | Moved::Taken { bytes: 0, .. } => Err(ChainCause::Memory),
        Moved::Taken { .. } | Moved::Next => Ok(()),
    }
}

/// Pulls until the node is in this generation and has so many changes.
fn pull_all<D: Disk>(
    alloc: Global,
    up: &mut Node<D>,
    node: &mut Node<D>,
    generation: u32,
    changes: u64,
) -> Result<(), ChainCause>
    requires can { CanFollow D.says node.old }
    ensures position { OnOk result (IsPosition node.new generation changes) }
    ensures behind { GoesOnBehindNode D.says up.old up.new node.old node.new }
    // It has whole changes, no fewer than before.
    ensures no_fewer { (c : Chronicle) → IsNode D.says node.old c → HasNoFewer D.says node.new c }
    ensures stopped { IfErr result (HaveStopped D.says up.old node.old up.new node.new) }
    ensures up_never_falls { NeverFalls D.says (files_of up.old) (files_of up.new) }
    ensures node_never_falls { NeverFalls D.says (files_of node.old) (files_of node.new) }
    ensures cause { result ≡ Err causes.Fault →
        PairRose D.says (files_of up.old) (files_of up.new) ⊎ PairRose D.says (files_of node.old) (files_of node.new) }
{
    for _ in 0..u64::MAX {
        let (reached, has) = node.position();
        if reached == generation && has == changes {
            return Ok(());
        }
        pull_more(alloc, up, node)?;
    }
    Err(ChainCause::Memory)
}

/// Compares the journals, pulls what the node lacks, compares the rows, and checks each content of the node.
pub(crate) fn follow<D: Disk>(
    alloc: Global,
    up: &mut Node<D>,
    node: &mut Node<D>,
) -> Result<Figures, ChainCause>
    requires can { CanFollow D.says node.old }
    ensures agrees { OnOk result (AgreeWith D.says up.old node.old) }
    ensures upstream { IfOk result (λ figures. (c : Chronicle) → IsNode D.says up.old c →
        IsSoFar c figures.generation figures.changes) }
    ensures position { IfOk result (λ figures. IsPosition node.new figures.generation figures.changes) }
    ensures rows { OnOk result (rows_of node.new.tables ≡ rows_of up.old.tables) }
    ensures verified { IfOk result (λ figures. AreVerified D.says node.new figures.verified) }
    ensures all { OnOk result (TakesAll D.says up.old node.old node.new) }
    ensures behind { GoesOnBehindNode D.says up.old up.new node.old node.new }
    ensures no_fewer { (c : Chronicle) → IsNode D.says node.old c → HasNoFewer D.says node.new c }
    ensures ended { IfErr result (λ cause. HasStopped D.says up.old node.old up.new node.new cause) }
    ensures up_never_falls { NeverFalls D.says (files_of up.old) (files_of up.new) }
    ensures node_never_falls { NeverFalls D.says (files_of node.old) (files_of node.new) }
    ensures cause { result ≡ Err causes.Fault →
        PairRose D.says (files_of up.old) (files_of up.new) ⊎ PairRose D.says (files_of node.old) (files_of node.new) }
{
    if let Some(departure) = node.departs(up)? {
        return Err(ChainCause::Apart(departure));
    }
    let (generation, changes) = up.position();
    pull_all(alloc, up, node, generation, changes)?;
    if !same_rows(node.tables(), up.tables()) {
        return Err(ChainCause::Incomplete);
    }
    let verified = node.verify(alloc)?;
    Ok(Figures {
        generation,
        changes,
        verified,
    })
}
