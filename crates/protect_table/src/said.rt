//! What a line says.

ghost use Rattle.std.specs.Prelude.{◌≡◌, nat_lt, if◌then◌else◌};
ghost use Rattle.protect_table.specs.Mode.{grants, denies};
ghost use Rattle.protect_table.specs.Numbers.{end_of, said_to};
ghost use Rattle.protect_table.specs.Rights.{is_whole as whole_test, names as names_caller, matches as matches_at, verdict, grants_at, denies_at, grants_somewhere, denies_everywhere};

use crate::line::ProtectLine;
use crate::mode::Grantee;
use crate::who::Who;
use crate::wildcard::{fits_name, fits_some_name};
use depot_path::{DepotPath, Piece};

/// What the protections are asked: whether a caller has a need at a file, or, where none is given, somewhere.
#[derive(Drop)]
pub(crate) struct Question<'a> {
    pub who: &'a Who,
    pub file: Option<&'a DepotPath>,
    pub need: u8,
}

/// A line that grants or denies a need.
#[derive(Clone, Copy)]
pub(crate) struct Said {
    /// Its number, from 0.
    pub line: usize,
    /// Whether it grants the need.
    pub granted: bool,
}

/// Whether a line stands no later.
pub(crate) fn is_within(line: usize, last: Option<Said>) -> bool
    ensures { result ≡ nat_lt line (end_of last) }
{
    match last {
        Some(said) => line <= said.line,
        None => false,
    }
}

/// Whether the pattern is `//...`.
fn is_whole(pieces: &[Piece]) -> bool
    ensures { result ≡ whole_test pieces.now }
{
    match pieces {
        [Piece::Byte(first), Piece::Byte(second), Piece::Dots] => *first == b'/' && *second == b'/',
        _ => false,
    }
}

impl ProtectLine {
    /// Whether the line is for the caller. The name is looked at first: most lines name others, from any host.
    fn names(&self, who: &Who) -> bool
        ensures { result ≡ names_caller who.now self.now }
    {
        let name = self.name.as_bytes();
        let named = match self.grantee {
            Grantee::User => fits_name(name, &who.user),
            Grantee::Group => fits_some_name(name, who.groups.as_slice()),
        };
        named && fits_name(self.host.as_bytes(), &who.host)
    }

    /// Whether it speaks of the need, as one that grants or as an exclusion.
    fn concerns(&self, need: u8) -> bool
        ensures { result ≡ (if self.now.excludes then denies self.now.mode need else grants self.now.mode need) }
    {
        if self.excludes {
            self.mode.denies(need)
        } else {
            self.mode.grants(need)
        }
    }

    /// Whether it is for the caller and the path.
    fn matches(&self, who: &Who, path: &DepotPath) -> bool
        ensures { result ≡ matches_at who.now path.now self.now }
    {
        self.names(who) && self.path.matches(path)
    }

    /// Whether it grants or denies the need at the path, if it does either.
    fn verdict_at(&self, who: &Who, path: &DepotPath, need: u8) -> Option<bool>
        ensures { result ≡ verdict (grants_at who.now path.now need self.now) (denies_at who.now path.now need self.now) }
    {
        if self.concerns(need) && self.matches(who, path) {
            Some(!self.excludes)
        } else {
            None
        }
    }

    /// Whether it grants the need at some path, or denies it at every path, if it does either.
    fn verdict_somewhere(&self, who: &Who, need: u8) -> Option<bool>
        ensures { result ≡ verdict (grants_somewhere who.now need self.now) (denies_everywhere who.now need self.now) }
    {
        let concerns = self.concerns(need) && (!self.excludes || is_whole(self.path.pieces()));
        if concerns && self.names(who) {
            Some(!self.excludes)
        } else {
            None
        }
    }

    /// Whether it grants what is asked or denies it, if it does either.
    pub(crate) fn said(&self, asked: &Question<'_>) -> Option<bool>
        ensures { result ≡ said_to asked.now self.now }
    {
        match asked.file {
            Some(path) => self.verdict_at(asked.who, path, asked.need),
            None => self.verdict_somewhere(asked.who, asked.need),
        }
    }
}
