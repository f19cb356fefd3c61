//! What lies behind the lock.
ghost use Rattle.std.specs.Prelude.{◌≡◌, ◌<◌, ◌≤◌, ◌-◌, ◌^◌, [], ◌∷◌, ◌++◌, length, OnErr, OnOk};
ghost use Rattle.std.specs.List.{All};
ghost use mathlib.Core.List.{IsPrefix};
ghost use Rattle.party_marks.specs.Known.{with_mark};
ghost use Rattle.party_marks.specs.Marks.{IsMarkOf, mark_of, marks_of};

use crate::mark::Mark;
use crate::mark_pass::MarkPass;
use crate::marking::Marking;
use crate::words::MarkWords;
use order_words::OrderSeat;
use std::alloc::AllocError;
use std::marker::{Model, PhantomData};

/// The seat of the order, which has all marks. Contracts see the whole list, and how many more
/// marks there is room for. Each mark is of a party of the run.
#[derive(Drop)]
pub struct Marks<N: Marking> {
    seat: OrderSeat<Mark>,
    of: PhantomData<N>,
}

impl<N: Marking> Model for Marks<N> {
    ghost use Rattle.std.specs.Prelude.{◌≡◌};
    ghost use Rattle.std.specs.List.{All};
    ghost use Rattle.party_marks.specs.Known.{MarksKnown, room_behind};
    ghost use Rattle.party_marks.specs.Marks.{IsMarkOf};

    ghost Value = { MarksKnown };

    ghost view = { λ m. record { list = m.seat.list; room = room_behind m.seat.list } };

    ghost invariant = { λ m. (m.seat.run ≡ N.marks) × All (IsMarkOf N.marks) m.seat.list };
}

impl<N: Marking> Marks<N> {
    /// The list without a mark.
    pub fn new(seat: OrderSeat<Mark>) -> Marks<N>
        requires { (seat.run ≡ N.marks) × (seat.list ≡ []) }
        ensures { result.list ≡ [] }
    {
        Marks {
            seat,
            of: PhantomData,
        }
    }

    /// Sees that there is room for one more mark. It takes no memory: the one error is that there
    /// are 2^64 - 1 marks.
    pub fn make_room(&mut self) -> Result<(), AllocError>
        ensures same { self.new ≡ self.old }
        ensures room { OnOk result (0 < self.new.room) }
        ensures full { OnErr result (self.new.room ≡ 0) }
        ensures many { OnErr result (2 ^ 64 - 1 ≤ length self.new.list) }
    {
        if self.seat.places() < u64::MAX {
            Ok(())
        } else {
            Err(AllocError)
        }
    }

    /// Each mark is of a party of the run.
    pub fn parties_are_of_run(&self)
        ensures { All (IsMarkOf N.marks) self.now.list }
    {
        // what is touched of it opens its invariant
        let _places = self.seat.places();
    }

    /// Puts a mark of the party behind all others. The party then knows the whole list, in which
    /// it has just this mark besides those that it had made. It takes no memory.
    pub fn mark(&mut self, words: &MarkWords<N>, pass: &mut MarkPass<N>)
        requires { 0 < self.old.room }
        ensures marked { self.new ≡ with_mark self.old (mark_of pass.old.party) }
        ensures pass { pass.new ≡ record pass.old { list = self.new.list } }
        ensures begins { IsPrefix pass.old.list self.old.list }
        ensures own { marks_of pass.old.party self.new.list ≡ marks_of pass.old.party pass.old.list ++ mark_of pass.old.party ∷ [] }
    {
        words.orders.announce_next(&mut self.seat, &mut pass.seat);
        words.orders.append(&mut self.seat, Mark::of(pass.party));
        words.orders.settle(&mut self.seat, &mut pass.seat);
        pass.marked = true;
    }

    /// The party learns the whole list. Each of its own marks was known to it.
    pub fn tell(&mut self, words: &MarkWords<N>, pass: &mut MarkPass<N>)
        ensures same { self.new ≡ self.old }
        ensures told { pass.new ≡ record pass.old { list = self.old.list } }
        ensures begins { IsPrefix pass.old.list self.old.list }
        ensures own { marks_of pass.old.party self.old.list ≡ marks_of pass.old.party pass.old.list }
    {
        words.orders.learn(&mut self.seat, &mut pass.seat);
    }
}
