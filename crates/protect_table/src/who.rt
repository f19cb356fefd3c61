//! Whom the protections are asked about, and what for.

use depot_path::{Name, Sequence};

/// A caller.
pub struct Who {
    /// The user.
    pub user: Name,
    /// The groups that list the user.
    pub groups: Sequence<Name>,
    /// The host that the caller comes from.
    pub host: Name,
}

impl Drop for Who {
    fn drop(self) {
        let Who {
            user: _,
            groups: _,
            host: _,
        } = self;
    }
}

/// A need, 1 list, 2 read, 3 open, 4 write, 5 admin or 6 super; or the greatest need that is granted, 0 where none is.
#[derive(Clone, Copy, PartialEq, Eq, PartialOrd, Ord)]
pub struct Level(pub u8);
