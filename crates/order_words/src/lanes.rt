//! What an order is made of, and which lanes it touches.
ghost use Rattle.std.specs.Prelude.{◌≡◌, ◌≢◌, ◌<◌, ℕ, IsTrue};
ghost use Rattle.order_words.specs.Lanes.{has_lane};

/// An entry of the order.
pub trait Entry: Drop {
    ghost lanes: { Self → ℕ };

    /// The lanes that it touches, bit i for lane i.
    fn lanes(&self) -> u32
        ensures { result ≡ lanes self.now };
}

/// The bits of some lanes and of one more.
pub fn with_lane(lanes: u32, lane: u32) -> u32
    requires { lane < 32 }
    ensures one { IsTrue (has_lane result lane) }
    ensures others { (i : ℕ) → i ≢ lane → has_lane result i ≡ has_lane lanes i }
{
    lanes | (1u32 << lane)
}
