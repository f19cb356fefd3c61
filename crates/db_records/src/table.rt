//! The tables.

ghost use Rattle.std.specs.Prelude.{◌≡◌};
ghost use Rattle.db_records.specs.Table.{table_number};

/// A table of the depot, in the order in which tables are written.
#[derive(Clone, Copy, PartialEq, Eq, PartialOrd, Ord)]
pub enum TableId {
    /// db.counters: the counters.
    Counter,
    /// db.group: the users of groups.
    Group,
    /// db.protect: the lines of the protections table.
    Protect,
    /// db.domain: the forms of clients and labels.
    Domain,
    /// db.have: the revisions that clients have.
    Have,
    /// db.label: the revisions that labels hold.
    Label,
    /// db.integed: the integration records.
    Integed,
    /// db.resolve: the resolves that clients owe or have made.
    Resolve,
    /// db.working: the files that clients have opened.
    Working,
    /// db.change: the changelists.
    Change,
    /// db.rev: the revisions of files.
    Rev,
}

impl TableId {
    /// The tables, in the order of their numbers.
    pub const ALL: [TableId; 11] = [
        TableId::Counter,
        TableId::Group,
        TableId::Protect,
        TableId::Domain,
        TableId::Have,
        TableId::Label,
        TableId::Integed,
        TableId::Resolve,
        TableId::Working,
        TableId::Change,
        TableId::Rev,
    ];

    /// The number of the table, from 0 to 10.
    pub fn number(self) -> usize
        ensures { result ≡ table_number self }
    {
        match self {
            TableId::Counter => 0,
            TableId::Group => 1,
            TableId::Protect => 2,
            TableId::Domain => 3,
            TableId::Have => 4,
            TableId::Label => 5,
            TableId::Integed => 6,
            TableId::Resolve => 7,
            TableId::Working => 8,
            TableId::Change => 9,
            TableId::Rev => 10,
        }
    }
}
