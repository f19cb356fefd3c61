//! The modes of lines, and whom a line is for.

ghost use Rattle.std.specs.Prelude.{◌≡◌};
ghost use Rattle.depot_path.specs.Bytes.{same};
ghost use Rattle.protect_table.specs.Mode.{mode_of, single_mode_of, grantee_of, grants as mode_grants, denies as mode_denies, need_of, is_single};

/// What a line grants, or denies where it is an exclusion (Command-Line Reference, "p4 protect", "Permission levels and access rights").
#[derive(Clone, Copy, PartialEq, Eq)]
pub enum Mode {
    /// `list`: need 1.
    List,
    /// `read`: the needs up to 2.
    Read,
    /// `open`: the needs up to 3.
    Open,
    /// `write`: the needs up to 4.
    Write,
    /// `admin`: the needs up to 5.
    Admin,
    /// `super`: all needs.
    Super,
    /// `=read`: need 2 alone.
    ReadAlone,
    /// `=open`: need 3 alone.
    OpenAlone,
    /// `=write`: need 4 alone.
    WriteAlone,
}

/// Whether a line's name is that of users or of groups.
#[derive(Clone, Copy, PartialEq, Eq)]
pub enum Grantee {
    /// `user`.
    User,
    /// `group`.
    Group,
}

fn is_same(word: &[u8], name: &[u8]) -> bool
    ensures { result ≡ same word.now name.now }
{
    word == name
}

impl Mode {
    /// The mode of a single right that a word names.
    fn single_from_word(word: &[u8]) -> Option<Self>
        ensures { result ≡ single_mode_of word.now }
    {
        if is_same(word, b"=read") {
            Some(Mode::ReadAlone)
        } else if is_same(word, b"=open") {
            Some(Mode::OpenAlone)
        } else if is_same(word, b"=write") {
            Some(Mode::WriteAlone)
        } else {
            None
        }
    }

    /// The mode that a word names.
    pub(crate) fn from_word(word: &[u8]) -> Option<Self>
        ensures { result ≡ mode_of word.now }
    {
        if is_same(word, b"list") {
            Some(Mode::List)
        } else if is_same(word, b"read") {
            Some(Mode::Read)
        } else if is_same(word, b"open") {
            Some(Mode::Open)
        } else if is_same(word, b"write") {
            Some(Mode::Write)
        } else if is_same(word, b"admin") {
            Some(Mode::Admin)
        } else if is_same(word, b"super") {
            Some(Mode::Super)
        } else {
            Self::single_from_word(word)
        }
    }

    /// The greatest need that the mode grants.
    fn greatest_need(self) -> u8
        ensures { result ≡ need_of self }
    {
        match self {
            Mode::List => 1,
            Mode::Read | Mode::ReadAlone => 2,
            Mode::Open | Mode::OpenAlone => 3,
            Mode::Write | Mode::WriteAlone => 4,
            Mode::Admin => 5,
            Mode::Super => 6,
        }
    }

    /// Whether it is one need alone that the mode grants and denies.
    fn is_alone(self) -> bool
        ensures { result ≡ is_single self }
    {
        matches!(self, Mode::ReadAlone | Mode::OpenAlone | Mode::WriteAlone)
    }

    /// Whether a line of this mode grants the need.
    pub(crate) fn grants(self, need: u8) -> bool
        ensures { result ≡ mode_grants self need }
    {
        if self.is_alone() {
            need == self.greatest_need()
        } else {
            need <= self.greatest_need()
        }
    }

    /// Whether an exclusion of this mode denies the need.
    pub(crate) fn denies(self, need: u8) -> bool
        ensures { result ≡ mode_denies self need }
    {
        !self.is_alone() || need == self.greatest_need()
    }
}

impl Grantee {
    /// The kind that a word names.
    pub(crate) fn from_word(word: &[u8]) -> Option<Self>
        ensures { result ≡ grantee_of word.now }
    {
        match word {
            b"user" => Some(Grantee::User),
            b"group" => Some(Grantee::Group),
            _ => None,
        }
    }
}
