//! What a script says after its head.

use depot_model::paths::{ClientPath, Text};
use depot_model::{Content, Line};

/// A command of a script.
#[derive(Drop)]
pub struct Item {
    /// Its number among the script's commands, from 1.
    pub number: u32,
    /// Its line.
    pub line: Line,
    /// The block that stood before it as its input.
    pub input: Option<Text>,
}

/// One thing that a script says.
#[derive(Drop)]
pub enum Entry {
    /// From here on a file of the client workspace holds these bytes.
    Put(Content),
    /// From here on the session has no content for this file.
    Clear(ClientPath),
    /// A command.
    Command(Item),
}
