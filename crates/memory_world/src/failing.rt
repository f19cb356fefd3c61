//! Which calls of an object fail, and how often it has failed.

ghost use Rattle.std.specs.Prelude.{◌≡◌, ◌≤◌, IsTrue, IsFalse};
ghost use Rattle.outside_api.specs.Count.{HasRisen};

/// The calls of one object: those of the numbers in `fails`, counted from 1, fail.
#[derive(Drop)]
pub(crate) struct Failing {
    fails: Vec<u64>,
    calls: u64,
    pub faults: u64,
}

impl Failing {
    ghost use Rattle.memory_world.specs.Failing.{calls_of, no_call, one_more, fails_next};

    /// No call yet.
    pub fn new(fails: Vec<u64>) -> Self
        ensures faults { result.faults ≡ 0 }
        ensures calls { calls_of result ≡ no_call fails.items }
    {
        Failing {
            fails,
            calls: 0,
            faults: 0,
        }
    }

    /// Counts a fault.
    pub fn fault(&mut self)
        ensures risen { HasRisen self.old.faults self.new.faults }
        ensures later { self.old.faults ≤ self.new.faults }
        ensures calls { calls_of self.new ≡ calls_of self.old }
    {
        self.faults = self.faults.saturating_add(1);
    }

    /// Counts a call, and a fault where this call fails.
    pub fn call_fails(&mut self) -> bool
        ensures exactly { result ≡ fails_next (calls_of self.old) }
        ensures calls { calls_of self.new ≡ one_more (calls_of self.old) }
        ensures later { self.old.faults ≤ self.new.faults }
        ensures risen { IsTrue result → HasRisen self.old.faults self.new.faults }
        ensures same { IsFalse result → self.new.faults ≡ self.old.faults }
    {
        self.calls = self.calls.saturating_add(1);
        let fails = self.fails.contains(&self.calls);
        if fails {
            self.fault();
        }
        fails
    }
}
