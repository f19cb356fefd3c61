//! The contents of a session's files, as its script says them line by line.

ghost use Rattle.std.specs.Prelude.{◌≡◌, ◌<◌, [], Some, None, map, IfOk, IfSome, OnOk, OnErr, IsTrue};
ghost use Rattle.std.specs.Arc.{arc_value};
ghost use Rattle.std.specs.List.{list_all};
ghost use Rattle.std.specs.Option.{option_copied};
ghost use Rattle.depot_model.specs.Contents as spec;

use crate::request::Content;
use db_records::paths::{ClientPath, Sequence, Text};
use indexmap::IndexMap;
use std::alloc::{AllocError, Global};
use std::marker::Model;
use std::sync::Arc;

/// What a line of a script says of a file.
#[derive(Drop)]
pub struct FileLine {
    /// How many lines before it say something of files.
    line: usize,
    /// The bytes that the file holds from there on, if it holds any.
    bytes: Option<Text>,
}

/// Bytes are below 256, as their type says.
fn know_bytes(bytes: &[u8])
    ensures { IsTrue (spec.are_bytes bytes.now) }
{}

/// Adds a line behind those that name a file.
fn add_line(
    alloc: Global,
    files: &mut IndexMap<ClientPath, Sequence<FileLine>>,
    path: ClientPath,
    line: FileLine,
) -> Result<(), AllocError>
    ensures ok { OnOk result (files.new.entries ≡ spec.with_line files.old.entries path line) }
    ensures err { OnErr result (files.new.entries ≡ files.old.entries) }
{
    match files.get_mut(&path) {
        Some(lines) => lines.push(line)?,
        None => {
            let mut lines = Sequence::new(alloc);
            lines.push(line)?;
            files.insert(path, lines)?;
        }
    }
    Ok(())
}

/// The bytes that the last of some first lines says.
fn newest(lines: &[FileLine], before: usize) -> Option<&Text>
    requires { spec.AreRising 0 lines.now }
    ensures { option_copied result ≡ spec.newest None before lines.now }
{
    let count = lines.partition_point(|line| line.line < before);
    if count == 0 {
        return None;
    }
    lines[count - 1].bytes.as_ref()
}

/// What a script says of the files of its client workspace, so that the contents behind each of its lines are known. A
/// line costs one look-up of its file.
pub struct ScriptContents {
    lines: usize,
    files: IndexMap<ClientPath, Sequence<FileLine>>,
}

impl Drop for ScriptContents {
    fn drop(self) {
        let ScriptContents { lines: _, files: _ } = self;
    }
}

impl Model for ScriptContents {
    ghost use Rattle.depot_model.specs.Contents.{ScriptFiles, AreTold};

    ghost Value = { ScriptFiles };

    ghost view = { λ script. record { lines = script.lines; files = script.files.entries } };

    ghost invariant = { λ script. AreTold script.lines script.files.entries };
}

impl ScriptContents {
    /// A script that says nothing of files yet, which takes no memory.
    pub fn new(alloc: Global) -> Self
        ensures { result ≡ record { lines = 0; files = [] } }
    {
        ScriptContents {
            lines: 0,
            files: IndexMap::new(alloc),
        }
    }

    /// How many lines say something of files.
    pub fn lines(&self) -> usize
        ensures { result ≡ self.now.lines }
    {
        self.lines
    }
}

impl ScriptContents {
    ghost use Rattle.depot_model.specs.Steps.Submitting.{block_at};

    /// Adds a line. The one error is want of memory, and then nothing is added.
    fn add(
        &mut self,
        alloc: Global,
        path: ClientPath,
        bytes: Option<Text>,
    ) -> Result<(), AllocError>
        requires { IfSome bytes (λ bytes. IsTrue (spec.are_bytes bytes)) }
        ensures ok { OnOk result (spec.IsOneMore self.old self.new path bytes) }
        ensures err { OnErr result (self.new ≡ self.old) }
    {
        let Some(lines) = self.lines.checked_add(1) else {
            return Err(AllocError);
        };
        let line = FileLine {
            line: self.lines,
            bytes,
        };
        add_line(alloc, &mut self.files, path, line)?;
        self.lines = lines;
        Ok(())
    }

    /// Adds a line by which a file holds these bytes. The one error is want of memory, and then nothing is added.
    pub fn put(&mut self, alloc: Global, content: Content) -> Result<(), AllocError>
        ensures ok { OnOk result (spec.IsOneMore self.old self.new content.path (Some content.bytes)) }
        ensures err { OnErr result (self.new ≡ self.old) }
    {
        let Content { path, bytes } = content;
        know_bytes(bytes.as_bytes());
        self.add(alloc, path, Some(bytes))
    }

    /// Adds a line by which a file has no content. The one error is want of memory, and then nothing is added.
    pub fn clear(&mut self, alloc: Global, path: ClientPath) -> Result<(), AllocError>
        ensures ok { OnOk result (spec.IsOneMore self.old self.new path None) }
        ensures err { OnErr result (self.new ≡ self.old) }
    {
        self.add(alloc, path, None)
    }

    /// The bytes that a file holds behind so many lines.
    fn at(&self, lines: usize, path: &ClientPath) -> Option<&Text>
        ensures { option_copied result ≡ block_at (map spec.content_of (spec.contents_after lines self.now.files)) path.now }
    {
        let said = self.files.get(path)?;
        newest(said.as_slice(), lines)
    }

    /// All bytes that files hold behind so many lines are below 256.
    fn are_bytes(&self, lines: usize)
        ensures { IsTrue (list_all (λ content. spec.are_bytes content.bytes) (map spec.content_of (spec.contents_after lines self.now.files))) }
    {
        let _ = &self.files;
    }
}

/// The contents of a session's files that are in force behind some lines of its script: a view on what the script says,
/// which all commands share.
pub struct Contents {
    script: Arc<ScriptContents, Global>,
    lines: usize,
}

impl Drop for Contents {
    fn drop(self) {
        let Contents {
            script: _,
            lines: _,
        } = self;
    }
}

impl Model for Contents {
    ghost use Rattle.std.specs.Prelude.{List, map};
    ghost use Rattle.std.specs.Arc.{arc_value};
    ghost use Rattle.depot_model.specs.declared.request.Content.{Content};

    ghost Value = { List Content };

    ghost use Rattle.depot_model.specs.Contents.{content_of, contents_after};

    ghost view = { λ contents. map content_of (contents_after contents.lines (arc_value contents.script).files) };
}

impl Contents {
    ghost use Rattle.depot_model.specs.Steps.Submitting.{block_at};

    /// The contents behind so many lines of a script, none for 0. The one error is that there are too many shares.
    pub fn behind(
        script: &Arc<ScriptContents, Global>,
        lines: usize,
    ) -> Result<Contents, AllocError>
        ensures { IfOk result (λ contents. contents ≡ map spec.content_of (spec.contents_after lines (arc_value script.now).files)) }
    {
        Ok(Contents {
            script: Arc::try_clone(script)?,
            lines,
        })
    }

    /// The bytes that a file holds, by one look-up and a search among the lines that name it.
    pub fn at(&self, path: &ClientPath) -> Option<&Text>
        ensures { option_copied result ≡ block_at self.now path.now }
    {
        self.script.at(self.lines, path)
    }

    /// All bytes are below 256.
    pub fn are_bytes(&self)
        ensures { IsTrue (list_all (λ content. spec.are_bytes content.bytes) self.now) }
    {
        self.script.are_bytes(self.lines)
    }
}
