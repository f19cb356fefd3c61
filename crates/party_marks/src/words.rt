//! The words of the list, which all threads share.
ghost use Rattle.std.specs.Prelude.{◌≡◌};

use crate::mark::Mark;
use crate::marking::Marking;
use order_words::Orders;
use std::marker::{Model, PhantomData};

/// The words of the run that `N` names: one for the list, and one for each party. Contracts see nothing
/// of them but that.
#[derive(Drop)]
pub struct MarkWords<N: Marking> {
    pub(crate) orders: Orders<Mark>,
    of: PhantomData<N>,
}

impl<N: Marking> Model for MarkWords<N> {
    ghost use Rattle.std.specs.Prelude.{◌≡◌};

    ghost Value = { Unit };

    ghost view = { λ w. tt };

    ghost invariant = { λ w. w.orders ≡ N.marks };
}

impl<N: Marking> MarkWords<N> {
    /// These words.
    pub fn new(orders: Orders<Mark>) -> MarkWords<N>
        requires { orders ≡ N.marks }
    {
        MarkWords {
            orders,
            of: PhantomData,
        }
    }
}
