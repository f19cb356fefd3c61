//! How views are cut and joined, and what each step on a word tells its seat.
use crate::lanes::Entry;
use crate::view::View;
use atomic_table::{Join, Play, Split};

/// The order's seat makes one more lane.
pub(crate) struct MakeLane;

impl<E> Split<View<E>> for MakeLane {
    ghost use Rattle.order_words.specs.Plays.{with_lane, new_lane};

    ghost left = { with_lane };

    ghost right = { new_lane };
}

/// A seat writes down what it knows.
pub(crate) struct WriteNote;

impl<E> Split<View<E>> for WriteNote {
    ghost use Rattle.order_words.specs.Plays.{written_note};

    ghost left = { λ v. v };

    ghost right = { written_note };
}

/// A seat is told what a note says.
pub(crate) struct ReadNote;

impl<E> Join<View<E>> for ReadNote {
    ghost use Rattle.order_words.specs.Plays.{told_by, spent_note};

    ghost both = { told_by };

    ghost spent = { spent_note };
}

/// The order's seat finds that it had what it was told.
pub(crate) struct OrderLearns;

impl<E: Entry> Play<E, View<E>> for OrderLearns {
    ghost use Rattle.order_words.specs.Plays.{LearnsOfOrder};

    ghost then = { LearnsOfOrder E.lanes };
}

/// A lane's seat takes in what it was told.
pub(crate) struct LaneLearns;

impl<E: Entry> Play<E, View<E>> for LaneLearns {
    ghost use Rattle.order_words.specs.Plays.{LearnsOfLane};

    ghost then = { LearnsOfLane E.lanes };
}

/// A lane's seat stores the next place in the lane's word.
pub(crate) struct Announce;

impl<E: Entry> Play<E, View<E>> for Announce {
    ghost use Rattle.order_words.specs.Plays.{Announces};

    ghost then = { Announces E.lanes };
}

/// The order's seat loads a lane's word.
pub(crate) struct Check;

impl<E: Entry> Play<E, View<E>> for Check {
    ghost use Rattle.order_words.specs.Plays.{Checks};

    ghost then = { Checks E.lanes };
}

/// The order's seat counts one more place.
pub(crate) struct Append;

impl<E: Entry> Play<E, View<E>> for Append {
    ghost use Rattle.order_words.specs.Plays.{Appends};

    ghost then = { Appends E.lanes };
}

/// A lane's seat finds that its announced place is there.
pub(crate) struct Rest;

impl<E: Entry> Play<E, View<E>> for Rest {
    ghost use Rattle.order_words.specs.Plays.{Rests};

    ghost then = { Rests E.lanes };
}

/// A lane's seat loads the word of any lane.
pub(crate) struct Look;

impl<E: Entry> Play<E, View<E>> for Look {
    ghost use Rattle.order_words.specs.Plays.{Looks};

    ghost then = { Looks E.lanes };
}
