//! The time, and the gate between a command's evaluation and its place.

ghost use Rattle.outside_api.specs.Says.{ClockSays};

/// What tells the time.
pub trait Clock {
    /// What it says.
    ghost says: { ClockSays Self };

    /// The seconds since 1970.
    fn now(&self) -> u64
        ensures { says.may_give self.now result };
}

/// Where a command may be held back, to try an interleaving of threads.
pub trait Gate {
    /// Is called after a command's first evaluation, and before it takes the journal's lock.
    fn pass(&self, party: u32, number: u32);

    /// Is called after a command got its place and gave its locks back.
    fn answered(&self, party: u32, number: u32);
}
