//! Which run it is. The seat behind the lock and those of the parties are seats of one table of
//! words.
use std::marker::Brand;

/// Names the words of the marks of one run. Each call of a program picks it.
pub trait Marking {
    ghost use Rattle.order_words.specs.Seats.{Run};

    ghost marks: { Run };
}

impl Marking for Brand {
    ghost use Rattle.order_words.specs.Seats.{no_run};

    ghost marks = { no_run };
}
