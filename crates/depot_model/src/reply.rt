//! What a command is answered.

use db_records::paths::{Sequence, Text};

/// A named value of a row.
#[derive(Drop)]
pub struct Field {
    /// The field's name.
    pub name: Text,
    /// Its value.
    pub value: Text,
}

/// A row of a reply: its fields in order, and the content of a file where one is printed.
pub struct Row {
    /// The fields.
    pub fields: Sequence<Field>,
    /// The content.
    pub content: Option<Text>,
}

impl Drop for Row {
    fn drop(self) {
        let Row {
            fields: _,
            content: _,
        } = self;
    }
}

/// The answer to a command.
#[derive(Drop)]
pub struct Reply {
    /// Its rows, in order.
    pub rows: Sequence<Row>,
}
