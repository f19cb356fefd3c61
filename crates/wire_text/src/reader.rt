//! Reading a script command by command.

ghost use Rattle.std.specs.Prelude.{◌≡◌, ◌≤◌, ◌+◌, IfOk};
ghost use Rattle.wire_text.specs.Commands.{ItemCase};
ghost use Rattle.wire_text.specs.Reading.{point_at};

use crate::contents::pass_entry;
use crate::entry::Item;
use crate::fault::{ScriptError, ScriptFault};
use crate::head::Head;
use crate::intake::Intake;
use crate::part::{PartRead, read_part};
use crate::script::{HeadRead, read_head};
use depot_model::paths::{ClientPath, Name, Text};
use indexmap::IndexMap;
use outside_api::Source;
use std::alloc::{AllocError, Global};

/// What comes where a command is wanted.
#[derive(Drop)]
pub(crate) enum ItemRead {
    /// A command.
    Item(Item),
    /// The script's end, or its first fault.
    Ended(Option<ScriptFault>),
    /// The source failed.
    Failed,
}

/// Reads on to the next command, and brings the contents before it up to date.
fn read_item<S: Source>(
    alloc: Global,
    source: &mut S,
    intake: &mut Intake,
    client: &Name,
    number: u32,
    input: &mut Option<Text>,
    contents: &mut IndexMap<ClientPath, Text>,
) -> Result<ItemRead, AllocError>
    requires number { number ≤ intake.old.place }
    ensures item { IfOk result (ItemCase (S.says.left source.old) (S.says.left source.new) (S.says.faults source.old) (S.says.faults source.new) intake.old intake.new (point_at client.now intake.old.place number input.old) input.new contents.old.entries contents.new.entries) }
    ensures counts { S.says.faults source.old ≤ S.says.faults source.new }
{
    loop {
        match read_part(alloc, source, intake, client, number, input)? {
            PartRead::Read(entry) => {
                if let Some(item) = pass_entry(contents, entry)? {
                    return Ok(ItemRead::Item(item));
                }
            }
            PartRead::Ended(fault) => return Ok(ItemRead::Ended(fault)),
            PartRead::Failed => return Ok(ItemRead::Failed),
        }
    }
}

/// A script that is read command by command: its head first, and then each command with the contents that are in force
/// at its line.
pub struct ScriptReader {
    intake: Intake,
    /// The client of the head, until the script ends.
    client: Option<Name>,
    number: u32,
    input: Option<Text>,
    contents: IndexMap<ClientPath, Text>,
    ghost numbered: { number ≤ intake.place },
}

impl Drop for ScriptReader {
    fn drop(self) {
        let ScriptReader {
            intake: _,
            client: _,
            number: _,
            input: _,
            contents: _,
        } = self;
    }
}

impl ScriptReader {
    ghost use Rattle.std.specs.Prelude.{None};
    ghost use Rattle.wire_text.specs.Readers.{IsFresh, HeadAnswer, NextAnswer, contents_of};

    /// A reader of a script of which nothing was read.
    pub fn new(alloc: Global) -> Result<Self, AllocError>
        ensures { IfOk result IsFresh }
    {
        Ok(ScriptReader {
            intake: Intake::new(alloc)?,
            client: None,
            number: 0,
            input: None,
            contents: IndexMap::new(alloc),
        })
    }

    /// Reads the head. It is asked once, first.
    pub fn head<S: Source>(&mut self, alloc: Global, source: &mut S) -> Result<Head, ScriptError>
        requires { IsFresh self.old }
        ensures head { HeadAnswer (S.says.left source.old) (S.says.left source.new) (S.says.faults source.old) (S.says.faults source.new) self.new result }
        ensures counts { S.says.faults source.old ≤ S.says.faults source.new }
    {
        match read_head(alloc, source, &mut self.intake) {
            Ok(HeadRead::Head(head)) => match head.client().clone() {
                Ok(client) => {
                    self.client = Some(client);
                    self.number = 1;
                    Ok(head)
                }
                Err(_) => Err(ScriptError::Memory),
            },
            Ok(HeadRead::Fault(fault)) => Err(ScriptError::Fault(fault)),
            Ok(HeadRead::Failed) => Err(ScriptError::ReadFault),
            Err(_) => Err(ScriptError::Memory),
        }
    }

    /// Reads the next command. After the script's end or an error each later call answers that there is none.
    pub fn next<S: Source>(
        &mut self,
        alloc: Global,
        source: &mut S,
    ) -> Result<Option<Item>, ScriptError>
        ensures next { NextAnswer (S.says.left source.old) (S.says.left source.new) (S.says.faults source.old) (S.says.faults source.new) self.old self.new result }
        ensures counts { S.says.faults source.old ≤ S.says.faults source.new }
    {
        let Some(client) = self.client.take() else {
            return Ok(None);
        };
        let number = self.number;
        self.number = 0;
        match read_item(
            alloc,
            source,
            &mut self.intake,
            &client,
            number,
            &mut self.input,
            &mut self.contents,
        ) {
            Ok(ItemRead::Item(item)) => {
                self.client = Some(client);
                self.number = number + 1;
                Ok(Some(item))
            }
            Ok(ItemRead::Ended(None)) => Ok(None),
            Ok(ItemRead::Ended(Some(fault))) => Err(ScriptError::Fault(fault)),
            Ok(ItemRead::Failed) => Err(ScriptError::ReadFault),
            Err(_) => Err(ScriptError::Memory),
        }
    }

    /// The last block of each file of the client workspace, in the order in which the files were first named since they
    /// were last cleared.
    pub fn contents(&self) -> &IndexMap<ClientPath, Text>
        ensures { result.now.entries ≡ contents_of self.now }
    {
        &self.contents
    }
}
