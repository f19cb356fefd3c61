//! The layouts of records: which fields follow which version and table.

ghost use Rattle.std.specs.Prelude.{◌≡◌};
ghost use Rattle.record_text.specs.Layout.{version_text, version_of, table_text};

use crate::word::Word;

/// The version of a record's text. The second has the other path of a move as its last field.
#[derive(Clone, Copy)]
pub(crate) enum Version {
    One,
    Two,
}

/// A table's fields in one of the versions.
#[derive(Clone, Copy)]
pub(crate) enum Layout {
    Counter,
    Group,
    Protect,
    Domain,
    Have,
    Label,
    Integed,
    Resolve,
    Working,
    MovedWorking,
    Change,
    Rev,
    MovedRev,
}

impl Layout {
    /// The version of the layout's records.
    pub(crate) fn version(self) -> Version
        ensures { result ≡ version_of self }
    {
        match self {
            Layout::MovedWorking | Layout::MovedRev => Version::Two,
            _ => Version::One,
        }
    }
}

impl Word for Version {
    ghost text = { version_text };

    fn text(&self) -> &'static [u8] {
        match self {
            Version::One => b"1 ",
            Version::Two => b"2 ",
        }
    }
}

impl Word for Layout {
    ghost text = { table_text };

    fn text(&self) -> &'static [u8] {
        match self {
            Layout::Counter => b"@db.counters@ ",
            Layout::Group => b"@db.group@ ",
            Layout::Protect => b"@db.protect@ ",
            Layout::Domain => b"@db.domain@ ",
            Layout::Have => b"@db.have@ ",
            Layout::Label => b"@db.label@ ",
            Layout::Integed => b"@db.integed@ ",
            Layout::Resolve => b"@db.resolve@ ",
            Layout::Working | Layout::MovedWorking => b"@db.working@ ",
            Layout::Change => b"@db.change@ ",
            Layout::Rev | Layout::MovedRev => b"@db.rev@ ",
        }
    }
}
