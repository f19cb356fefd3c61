//! The shapes of forms, and the fields of each.

ghost use Rattle.std.specs.Prelude.{◌≡◌};
ghost use Rattle.spec_form.specs.Shapes.{fields_of, kind_in, kind_of, seen_rows};

/// What a form is of.
#[derive(Clone, Copy, PartialEq, Eq)]
pub enum Shape {
    /// A client (`p4 client`).
    Client,
    /// A label (`p4 label`).
    Label,
    /// A group (`p4 group`).
    Group,
    /// The protections table (`p4 protect`).
    Protect,
    /// A changelist (`p4 change`).
    Change,
    /// A file that is shelved in a pending changelist.
    Shelf,
    /// A job (`p4 job`).
    Job,
    /// A job that a changelist fixes.
    Fix,
}

/// How many lines a field has.
#[derive(Clone, Copy, PartialEq, Eq)]
pub enum FieldKind {
    /// At most one, behind its name.
    Single,
    /// Any number, each on a line of its own.
    Lines,
}

/// A field that a shape may have: its name, its kind, and whether each form of the shape has it.
pub type FieldRow = (&'static [u8], FieldKind, bool);

const CLIENT: [FieldRow; 11] = [
    (b"Client", FieldKind::Single, true),
    (b"Update", FieldKind::Single, false),
    (b"Access", FieldKind::Single, false),
    (b"Owner", FieldKind::Single, false),
    (b"Host", FieldKind::Single, false),
    (b"Description", FieldKind::Lines, false),
    (b"Root", FieldKind::Single, false),
    (b"Options", FieldKind::Single, false),
    (b"SubmitOptions", FieldKind::Single, false),
    (b"LineEnd", FieldKind::Single, false),
    (b"View", FieldKind::Lines, true),
];

const LABEL: [FieldRow; 8] = [
    (b"Label", FieldKind::Single, true),
    (b"Update", FieldKind::Single, false),
    (b"Access", FieldKind::Single, false),
    (b"Owner", FieldKind::Single, false),
    (b"Description", FieldKind::Lines, false),
    (b"Options", FieldKind::Single, false),
    (b"Revision", FieldKind::Single, false),
    (b"View", FieldKind::Lines, false),
];

const GROUP: [FieldRow; 11] = [
    (b"Group", FieldKind::Single, true),
    (b"MaxResults", FieldKind::Single, false),
    (b"MaxScanRows", FieldKind::Single, false),
    (b"MaxLockTime", FieldKind::Single, false),
    (b"MaxOpenFiles", FieldKind::Single, false),
    (b"MaxMemory", FieldKind::Single, false),
    (b"Timeout", FieldKind::Single, false),
    (b"PasswordTimeout", FieldKind::Single, false),
    (b"Subgroups", FieldKind::Lines, false),
    (b"Owners", FieldKind::Lines, false),
    (b"Users", FieldKind::Lines, false),
];

const PROTECT: [FieldRow; 1] = [(b"Protections", FieldKind::Lines, true)];

const CHANGE: [FieldRow; 11] = [
    (b"Change", FieldKind::Single, true),
    (b"Date", FieldKind::Single, false),
    (b"Client", FieldKind::Single, false),
    (b"User", FieldKind::Single, false),
    (b"Status", FieldKind::Single, false),
    (b"Type", FieldKind::Single, false),
    (b"ImportedBy", FieldKind::Single, false),
    (b"Identity", FieldKind::Single, false),
    (b"Description", FieldKind::Lines, true),
    (b"Jobs", FieldKind::Lines, false),
    (b"Files", FieldKind::Lines, false),
];

const SHELF: [FieldRow; 11] = [
    (b"Path", FieldKind::Single, true),
    (b"Change", FieldKind::Single, true),
    (b"Client", FieldKind::Single, false),
    (b"User", FieldKind::Single, false),
    (b"State", FieldKind::Single, true),
    (b"Action", FieldKind::Single, false),
    (b"Type", FieldKind::Single, false),
    (b"Base", FieldKind::Single, false),
    (b"From", FieldKind::Single, false),
    (b"FromRev", FieldKind::Single, false),
    (b"Content", FieldKind::Single, false),
];

const JOB: [FieldRow; 5] = [
    (b"Job", FieldKind::Single, true),
    (b"Status", FieldKind::Single, true),
    (b"User", FieldKind::Single, true),
    (b"Date", FieldKind::Single, false),
    (b"Description", FieldKind::Lines, true),
];

const FIX: [FieldRow; 4] = [
    (b"Job", FieldKind::Single, true),
    (b"Change", FieldKind::Single, true),
    (b"User", FieldKind::Single, true),
    (b"State", FieldKind::Single, true),
];

/// The kind of a field, where these rows have one of the name.
fn kind_among(mut rows: &[FieldRow], name: &[u8]) -> Option<FieldKind>
    ensures { result ≡ kind_in (seen_rows rows.entry.now) name.now }
{
    while let [row, rest @ ..] = rows {
        if row.0 == name {
            return Some(row.1);
        }
        rows = rest;
    }
    None
}

impl Shape {
    /// The fields that a form of this shape may have.
    #[tactic(auto, unfolding(crate::specs::Shapes::fields_of))]
    pub fn rows(self) -> &'static [FieldRow]
        ensures { seen_rows result.now ≡ fields_of self }
    {
        match self {
            Shape::Client => &CLIENT,
            Shape::Label => &LABEL,
            Shape::Group => &GROUP,
            Shape::Protect => &PROTECT,
            Shape::Change => &CHANGE,
            Shape::Shelf => &SHELF,
            Shape::Job => &JOB,
            Shape::Fix => &FIX,
        }
    }

    /// The kind of a field, where forms of this shape may have it.
    pub fn kind(self, name: &[u8]) -> Option<FieldKind>
        ensures { result ≡ kind_of self name.now }
    {
        kind_among(self.rows(), name)
    }
}
