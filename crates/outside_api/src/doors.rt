//! Where the sources and sinks of the parties come from.

ghost use Rattle.std.specs.Prelude.{◌≡◌, ◌≢◌, List, ℕ, IfOk};
ghost use Rattle.outside_api.specs.Says.{DoorsSay};
ghost use Rattle.outside_api.specs.Count.{HasCause};

use crate::stream::{Failed, Sink, Source};

/// What opens the source and the sink of a party by its name.
pub trait Doors {
    /// What the scripts are read from.
    type In: Source + Drop;

    /// What the replies are given to.
    type Out: Sink + Drop;

    /// What they say.
    ghost says: { DoorsSay Self };

    /// Gives the source and the sink of a name, each with a count of 0, and takes the name away.
    fn come(&mut self, name: &str) -> Result<(Self::In, Self::Out), Failed>
        ensures source { IfOk result (λ pair. Self.In.says.left pair.0 ≡ says.input self.old name.now) }
        ensures sink { IfOk result (λ pair. Self.Out.says.given pair.1 ≡ says.output self.old name.now) }
        ensures new_source { IfOk result (λ pair. Self.In.says.faults pair.0 ≡ 0) }
        ensures new_sink { IfOk result (λ pair. Self.Out.says.faults pair.1 ≡ 0) }
        ensures other_inputs { (other : List ℕ) → other ≢ name.now → says.input self.new other ≡ says.input self.old other }
        ensures other_outputs { (other : List ℕ) → other ≢ name.now → says.output self.new other ≡ says.output self.old other }
        ensures cause { HasCause (says.faults self.old) (says.faults self.new) result };
}
