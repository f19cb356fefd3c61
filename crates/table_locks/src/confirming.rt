//! What a command compares under the lock of the order before it is given its place.
ghost use Rattle.std.specs.Prelude.{◌≡◌, not, is_some, IfSome, IsTrue};
ghost use Rattle.std.specs.List.{AllByRecursion, list_any};
ghost use Rattle.depot_model.specs.declared.request.Request.{Request};
ghost use Rattle.locked_tables.specs.Known.{IsStill, is_touched};
ghost use Rattle.locked_tables.specs.Taken.{rows_after};
ghost use Rattle.table_changes.specs.Changed.{rows_of};
ghost use Rattle.table_locks.specs.Confirmed.{IsConfirmed};
ghost use Rattle.table_locks.specs.Gathered.{Covers, HasSet, IsShown};

use crate::confirmed::Confirmed;
use crate::gathered::Gathered;
use locked_tables::{Naming, OrderWords, Peek, PlacedOrder};

/// Whether each table is after the whole order as it was when it was looked at.
fn are_still<N: Naming>(
    words: &OrderWords<N>,
    order: &mut PlacedOrder<N>,
    peeks: Vec<Peek<N>>,
) -> bool
    ensures same { order.new ≡ order.old }
    ensures still { IsTrue result → AllByRecursion (IsStill N.rows order.old) peeks.items }
    ensures judged { result ≡ not (list_any (is_touched order.old) peeks.items) }
{
    for peek in peeks {
        if !order.judge(words, peek) {
            return false;
        }
    }
    true
}

impl<'a, N: Naming> Gathered<'a, N> {
    /// What was gathered, where no table that was looked at was touched since: the tables of the
    /// set are then as they are after the whole order, and the held ones know it. Otherwise all
    /// locks are given back.
    pub fn confirm(
        self,
        words: &OrderWords<N>,
        order: &mut PlacedOrder<N>,
    ) -> Option<Confirmed<'a, N>>
        requires { IsShown N.rows self }
        ensures same { order.new ≡ order.old }
        ensures confirmed { IfSome result (IsConfirmed N.rows order.old self.entry) }
        ensures set { IfSome result (λ confirmed. (request : Request) → Covers self.entry request →
            HasSet (rows_after N.rows order.old) (rows_of confirmed.tables) request) }
        ensures judged { is_some result ≡ not (list_any (is_touched order.old) self.entry.peeks.items) }
    {
        let Gathered {
            mut held,
            peeks,
            tables,
        } = self;
        order.learn_held(words, held.as_mut_slice());
        if !are_still(words, order, peeks) {
            return None;
        }
        Some(Confirmed { held, tables })
    }
}
