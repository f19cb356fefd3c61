//! Drawing numbers.

use std::marker::Model;

/// A source of numbers, each of which follows from the one before it; contracts see it as the last one.
#[derive(Drop)]
pub struct Draw {
    number: u32,
}

impl Model for Draw {
    ghost use Rattle.std.specs.Prelude.{ℕ};

    ghost Value = { ℕ };

    ghost view = { λ draw. draw.number };
}

impl Draw {
    ghost use Rattle.std.specs.Prelude.{◌≡◌, ◌<◌};
    ghost use Rattle.seeded_numbers.specs.Numbers.{next_number, value_of};

    /// The numbers after a seed.
    pub fn new(seed: u32) -> Self
        ensures { result ≡ seed }
    {
        Draw { number: seed }
    }

    /// Goes on to the next number, and gives its value.
    pub fn next(&mut self) -> u32
        ensures number { self.new ≡ next_number self.old }
        ensures value { result ≡ value_of (next_number self.old) }
        ensures below { result < 32768 }
    {
        let product = 1_103_515_245 * self.number as u64 + 12_345;
        self.number = (product % (1 << 31)) as u32;
        self.number / 65_536
    }
}
