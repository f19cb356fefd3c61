//! Nodes of a tree: pages, and branches of them.

ghost use Rattle.std.specs.Prelude.{◌≡◌, ◌↔◌, ◌<◌, ◌==◌, List, [], ◌∷◌, ◌++◌, IfOk, OnOk, OnErr, IsTrue, IsFalse, length, vec_len};
ghost use Rattle.db_records.specs.declared.record.Record.{Record};
ghost use Rattle.db_records.specs.declared.change.Op.TheVariants.{Put};
ghost use Rattle.table_store.specs.Places.{AllStandBelow, first_order as first_order_of, placed_once};
ghost use Rattle.table_store.specs.Nodes.{rows_of, AllFilled, AreNodes, ChangesNode, IsNodeCount, ReplacesNode};
ghost use Rattle.table_store.specs.Parts.{AreParts};
ghost use Rattle.table_store.specs.SearchKey.{sought_place};

use crate::row_order::RowOrder;
use crate::search_key::SearchKey;
use crate::shared_row::SharedRow;
use db_records::{Op, Record};
use std::alloc::{AllocError, Global};
use std::cmp::Ordering;
use std::marker::Model;
use std::sync::Arc;

/// Rows in an order, of which a tree is made: a page, or a branch of pages.
pub(crate) trait Node: Sized + Drop {
    ghost use Rattle.std.specs.Prelude.{List};
    ghost use Rattle.db_records.specs.declared.record.Record.{Record};

    type Order: RowOrder;

    ghost rows: { Self → List Record };

    /// A node of one row.
    fn of_row(alloc: Global, row: &SharedRow) -> Result<Self, AllocError>
        ensures { IfOk result (λ node. rows node ≡ row.now ∷ []) };

    /// The order of the first row and what is looked for, and Less where there is no row.
    fn first_order(&self, sought: SearchKey<'_>) -> Ordering
        ensures { result ≡ first_order_of Self.Order.place (rows self.now) (sought_place Self.Order.place sought.entry) };

    /// Whether all rows are below a row.
    fn ends_below(&self, row: &Record) -> bool
        ensures { IsTrue result ↔ AllStandBelow Self.Order.place (Self.Order.place row.now) (rows self.now) };

    /// Whether there are no rows.
    fn is_empty(&self) -> bool
        ensures { result ≡ (length (rows self.now) == 0) };

    /// Makes a change, if it can be made without other nodes, and tells whether it did.
    fn change_within(&mut self, alloc: Global, op: Op, row: &SharedRow) -> Result<bool, AllocError>
        ensures done { IfOk result (λ done. IsTrue done → rows self.new ≡ placed_once Self.Order.place (rows self.old) op row.now) }
        ensures left { IfOk result (λ done. IsFalse done → rows self.new ≡ rows self.old) }
        ensures err { OnErr result (rows self.new ≡ rows self.old) };

    /// Whether the node is full, and a change puts a row behind all of its rows.
    fn ends_before(&self, op: Op, row: &SharedRow) -> bool
        ensures { IsTrue result → (op ≡ Put) × AllStandBelow Self.Order.place (Self.Order.place row.now) (rows self.now) };

    /// What a change makes of the node, which stays as it is.
    fn changed(&self, alloc: Global, op: Op, row: &SharedRow) -> Result<Parts<Self>, AllocError>
        ensures { IfOk result (λ parts. AreParts rows (placed_once Self.Order.place (rows self.now) op row.now) parts) };
}

/// The nodes that a change makes of one: none where no row is left, and two where it has too many.
#[derive(Drop)]
pub(crate) enum Parts<N: Drop> {
    None,
    One(N),
    Two(N, N),
}

/// A node that the lists of several versions hold. It changes only while one list alone holds it.
#[derive(Drop)]
pub(crate) struct SharedNode<N: Node> {
    node: Arc<N, Global>,
}

impl<N: Node> Model for SharedNode<N> {
    ghost use Rattle.std.specs.Prelude.{List};
    ghost use Rattle.std.specs.Arc.{arc_value};
    ghost use Rattle.db_records.specs.declared.record.Record.{Record};

    ghost Value = { List Record };

    ghost view = { λ a. N.rows (arc_value a.node) };
}

impl<N: Node> SharedNode<N> {
    /// A node, of which this is the first share. The one error is want of memory.
    pub(crate) fn new(alloc: Global, node: N) -> Result<SharedNode<N>, AllocError>
        ensures { IfOk result (λ shared. shared ≡ N.rows node) }
    {
        Ok(SharedNode {
            node: Arc::new(alloc, node)?,
        })
    }

    /// The same node, shared. The one error is that there are too many shares.
    fn share(&self) -> Result<SharedNode<N>, AllocError>
        ensures { IfOk result (λ shared. shared ≡ self.now) }
    {
        Ok(SharedNode {
            node: Arc::try_clone(&self.node)?,
        })
    }

    /// The node.
    pub(crate) fn node(&self) -> &N
        ensures { N.rows result.now ≡ self.now }
    {
        &self.node
    }

    /// Makes a change, if no other list holds the node and none but it is to change, and tells whether it did.
    fn change_alone(&mut self, alloc: Global, op: Op, row: &SharedRow) -> Result<bool, AllocError>
        ensures done { IfOk result (λ done. IsTrue done → self.new ≡ placed_once N.Order.place self.old op row.now) }
        ensures left { IfOk result (λ done. IsFalse done → self.new ≡ self.old) }
        ensures err { OnErr result (self.new ≡ self.old) }
    {
        match Arc::get_mut(&mut self.node) {
            Some(node) => node.change_within(alloc, op, row),
            None => Ok(false),
        }
    }
}

/// The same nodes, shared.
pub(crate) fn share_nodes<N: Node>(
    alloc: Global,
    nodes: &[SharedNode<N>],
) -> Result<Vec<SharedNode<N>>, AllocError>
    ensures { IfOk result (λ list. list.items ≡ nodes.now) }
{
    let mut list = Vec::with_capacity(alloc, nodes.len())?;
    for node in nodes {
        list.push(node.share()?)?;
    }
    Ok(list)
}

/// How many nodes begin at or below what is looked for.
pub(crate) fn nodes_up_to<N: Node>(nodes: &[SharedNode<N>], sought: SearchKey<'_>) -> usize
    requires { AreNodes N.Order.place nodes.now }
    ensures { IsNodeCount N.Order.place (sought_place N.Order.place sought.entry) nodes.now result }
{
    nodes.partition_point(|shared| shared.node().first_order(sought).is_le())
}

/// How many nodes begin at or below a row. The last node is looked at first, since rows are mostly put
/// in their order.
pub(crate) fn nodes_up_to_row<N: Node>(nodes: &[SharedNode<N>], row: &Record) -> usize
    requires { AreNodes N.Order.place nodes.now }
    ensures { IsNodeCount N.Order.place (N.Order.place row.now) nodes.now result }
{
    if end_below(nodes, row) {
        return nodes.len();
    }
    nodes_up_to(nodes, SearchKey::OfRow(row))
}

/// Whether all rows of the nodes are below a row.
pub(crate) fn end_below<N: Node>(nodes: &[SharedNode<N>], row: &Record) -> bool
    requires { AreNodes N.Order.place nodes.now }
    ensures { IsTrue result ↔ AllStandBelow N.Order.place (N.Order.place row.now) (rows_of nodes.now) }
{
    match nodes.last() {
        Some(shared) => shared.node().ends_below(row),
        None => true,
    }
}

/// Makes a change: in the node of its row, where that isn't shared.
pub(crate) fn change_nodes<N: Node>(
    list: &mut Vec<SharedNode<N>>,
    alloc: Global,
    op: Op,
    row: &SharedRow,
) -> Result<(), AllocError>
    requires { AreNodes N.Order.place list.old.items }
    ensures ok { OnOk result (rows_of list.new.items ≡ placed_once N.Order.place (rows_of list.old.items) op row.now) }
    ensures err { OnErr result (list.new.items ≡ list.old.items) }
    ensures nodes { AreNodes N.Order.place list.new.items }
{
    if list.is_empty() {
        return begin_nodes(list, alloc, op, row);
    }
    let count = nodes_up_to_row(list, row.row());
    change_node(list, alloc, count.saturating_sub(1), op, row)
}

/// Makes the first node.
fn begin_nodes<N: Node>(
    list: &mut Vec<SharedNode<N>>,
    alloc: Global,
    op: Op,
    row: &SharedRow,
) -> Result<(), AllocError>
    requires { list.old.items ≡ [] }
    ensures ok { OnOk result (rows_of list.new.items ≡ placed_once N.Order.place [] op row.now) }
    ensures err { OnErr result (list.new.items ≡ list.old.items) }
    ensures nodes { AreNodes N.Order.place list.new.items }
{
    if op == Op::Remove {
        return Ok(());
    }
    push_row(list, alloc, row)
}

/// Puts a node of one row behind the others.
pub(crate) fn push_row<N: Node>(
    list: &mut Vec<SharedNode<N>>,
    alloc: Global,
    row: &SharedRow,
) -> Result<(), AllocError>
    ensures ok { OnOk result (rows_of list.new.items ≡ rows_of list.old.items ++ row.now ∷ []) }
    ensures filled { AllFilled list.old.items → AllFilled list.new.items }
    ensures err { OnErr result (list.new.items ≡ list.old.items) }
{
    list.push(SharedNode::new(alloc, N::of_row(alloc, row)?)?)?;
    Ok(())
}

/// Makes a change to a node: behind it where it is full and the last, in place where that can be, and else
/// with copies.
fn change_node<N: Node>(
    list: &mut Vec<SharedNode<N>>,
    alloc: Global,
    at: usize,
    op: Op,
    row: &SharedRow,
) -> Result<(), AllocError>
    requires { at < vec_len list.old }
    ensures ok { OnOk result (ChangesNode N.Order.place list.old.items at op row.now list.new.items) }
    ensures err { OnErr result (list.new.items ≡ list.old.items) }
{
    if at + 1 == list.len() && list[at].node().ends_before(op, row) {
        return push_row(list, alloc, row);
    }
    if change_at(list, alloc, at, op, row)? {
        return Ok(());
    }
    let parts = list[at].node().changed(alloc, op, row)?;
    replace_node(list, alloc, at, parts)
}

/// Makes a change in the node at a place, if that can be, and tells whether it did. A node that has no
/// rows then goes.
fn change_at<N: Node>(
    list: &mut Vec<SharedNode<N>>,
    alloc: Global,
    at: usize,
    op: Op,
    row: &SharedRow,
) -> Result<bool, AllocError>
    requires { at < vec_len list.old }
    ensures done { IfOk result (λ done. IsTrue done → ChangesNode N.Order.place list.old.items at op row.now list.new.items) }
    ensures left { IfOk result (λ done. IsFalse done → list.new.items ≡ list.old.items) }
    ensures err { OnErr result (list.new.items ≡ list.old.items) }
{
    if !list[at].change_alone(alloc, op, row)? {
        return Ok(false);
    }
    if list[at].node().is_empty() {
        list.remove(at);
    }
    Ok(true)
}

/// Puts what a change made of a node in its place.
fn replace_node<N: Node>(
    list: &mut Vec<SharedNode<N>>,
    alloc: Global,
    at: usize,
    parts: Parts<N>,
) -> Result<(), AllocError>
    requires { at < vec_len list.old }
    ensures ok { OnOk result ((rows : List Record) → AreParts N.rows rows parts → ReplacesNode list.old.items at rows list.new.items) }
    ensures err { OnErr result (list.new.items ≡ list.old.items) }
{
    match parts {
        Parts::None => {
            list.remove(at);
        }
        Parts::One(node) => {
            list[at] = SharedNode::new(alloc, node)?;
        }
        Parts::Two(lower, upper) => {
            let lower = SharedNode::new(alloc, lower)?;
            list.insert(at + 1, SharedNode::new(alloc, upper)?)?;
            list[at] = lower;
        }
    }
    Ok(())
}
