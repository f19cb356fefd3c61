//! What a depot that replicas follow began with.
use std::marker::Brand;

/// Names from which depots that replicas follow it a depot in files began. Each call of a program picks them.
pub trait Following {
    ghost use Rattle.followed_depot.specs.Masters.{Masters};

    /// What had been done before, the depot, and the groups of its journal.
    ghost masters: { Masters };
}

impl Following for Brand {
    ghost masters = { λ past start c. Unit {0} };
}
