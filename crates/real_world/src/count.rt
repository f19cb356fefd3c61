//! Counts of faults.

ghost use Rattle.std.specs.Prelude.{◌≡◌, ◌≤◌};
ghost use Rattle.outside_api.specs.Count.{HasRisen};

/// A count of faults, which stays at its end, and the first of them.
#[derive(Drop)]
pub(crate) struct Faults<E> {
    pub count: u64,
    pub first: Option<E>,
}

impl<E: Drop> Faults<E> {
    /// No faults.
    pub fn none() -> Self
        ensures { result.count ≡ 0 }
    {
        Faults {
            count: 0,
            first: None,
        }
    }

    /// Counts a fault of which nothing is known.
    pub fn add(&mut self)
        ensures risen { HasRisen self.old.count self.new.count }
        ensures later { self.old.count ≤ self.new.count }
    {
        self.count = self.count.saturating_add(1);
    }

    /// Counts a fault.
    pub fn rise(&mut self, fault: E)
        ensures risen { HasRisen self.old.count self.new.count }
        ensures later { self.old.count ≤ self.new.count }
    {
        self.add();
        if self.first.is_none() {
            self.first = Some(fault);
        }
    }
}
