//! Which run it is. The seats behind the locks and those of the parties are seats of one table of
//! words, and all versions began with the same rows, beside the same archive.
use std::marker::Brand;

/// Names the words of one run, the rows that the tables had when it began, how many bytes of the
/// archive were used then, and how many places each party may have. Each call of a program picks
/// them.
pub trait Naming {
    ghost use Rattle.std.specs.Prelude.{ℕ};
    ghost use Rattle.order_words.specs.Seats.{Run};
    ghost use Rattle.table_changes.specs.Changed.{AllRows};

    ghost run: { Run };

    ghost rows: { AllRows };

    ghost end: { ℕ };

    /// How many places each party may have.
    ghost places: { ℕ → ℕ };
}

impl Naming for Brand {
    ghost use Rattle.order_words.specs.Seats.{no_run};
    ghost use Rattle.table_changes.specs.Changed.{no_rows};

    ghost run = { no_run };

    ghost rows = { no_rows };

    ghost end = { 0 };

    ghost places = { λ party. 0 };
}
