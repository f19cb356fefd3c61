//! Client views.

ghost use Rattle.std.specs.Prelude.{◌≡◌, ◌↔◌, ◌∷◌, ℕ, List, ◌+◌, ◌^◌, ◌<◌, ◌++◌, Some, true, false, length, drop, if◌then◌else◌, IfOk, OnOk, OnErr};
ghost use Rattle.std.specs.List.{list_all, list_any, Contains, IsDistinct};
ghost use Rattle.depot_path.specs.Answers.{Answers};
ghost use Rattle.depot_path.specs.Bytes.{begins_with, same};
ghost use Rattle.depot_path.specs.Path.{is_path, printed};
ghost use Rattle.view_map.specs.Beginnings.{beginnings};
ghost use Rattle.view_map.specs.Carry.{is_paired, takes as takes_file, depot_file, some_depot_fits, some_client_fits};
ghost use Rattle.view_map.specs.Mapping.{hidden_by_some, taken_by_some, unhidden, file_by, files_at as files_in, path_in, at_path, mapped};
ghost use Rattle.view_map.specs.declared.mapped.Mapped.TheVariants.{At};
ghost use Rattle.view_map.specs.Reading.{lines_from, view_of, in_line, no_memory, is_memory};

use crate::fault::{ViewCause, ViewFault};
use crate::line::{ViewLine, root_of};
use crate::mapped::Mapped;
use depot_path::{ClientPath, DepotPath, Name, Sequence, Text};
use std::alloc::{AllocError, Global};
use std::marker::Model;

/// The most lines of a view.
const LINES: usize = 200;

/// A client's view, seen in contracts as the list of its lines. Both sides of each line have the same specifiers.
pub struct View {
    lines: Sequence<ViewLine>,
}

impl Drop for View {
    fn drop(self) {
        let View { lines: _ } = self;
    }
}

impl Model for View {
    ghost use Rattle.std.specs.Prelude.{◌≡◌, List, true};
    ghost use Rattle.std.specs.List.{list_all};
    ghost use Rattle.view_map.specs.Carry.{is_paired};
    ghost use Rattle.view_map.specs.declared.line.ViewLine.{ViewLine};

    ghost Value = { List ViewLine };

    ghost view = { λ view. view.lines };

    ghost invariant = { λ view. list_all is_paired view.lines ≡ true };
}

/// The fault of a bad line, where `before` lines precede it.
fn fault_after(before: usize, what: ViewCause) -> ViewFault
    requires { before + 1 < 2 ^ 64 }
    ensures { result ≡ (if is_memory what then no_memory else in_line (before + 1) what) }
{
    match what {
        ViewCause::Memory => ViewFault { what, line: 0 },
        _ => ViewFault {
            what,
            line: before + 1,
        },
    }
}

/// The lines that texts spell, or the fault of the first bad one.
fn read_lines(alloc: Global, root: &[u8], lines: &[Text]) -> Result<Sequence<ViewLine>, ViewFault>
    ensures value { Answers no_memory result (lines_from 1 root.now lines.now) }
    ensures paired { IfOk result (λ lines. list_all is_paired lines ≡ true) }
{
    let mut read = Sequence::new(alloc);
    for i in 0..lines.len() {
        match ViewLine::read(alloc, root, lines[i].as_bytes()) {
            Ok(line) => {
                if read.push(line).is_err() {
                    return Err(fault_after(i, ViewCause::Memory));
                }
            }
            Err(what) => return Err(fault_after(i, what)),
        }
    }
    Ok(read)
}

impl ViewLine {
    /// Whether the line takes the file.
    fn takes(&self, alloc: Global, file: &DepotPath) -> Result<bool, AllocError>
        ensures { IfOk result (λ takes. takes ≡ takes_file file.now self.now) }
    {
        if self.is_exclusion() {
            Ok(self.depot.matches(file))
        } else {
            Ok(self.client_path(alloc, file)?.is_some())
        }
    }
}

/// The lines after one.
fn lines_after(lines: &[ViewLine], at: usize) -> &[ViewLine]
    requires { at < length lines.now }
    ensures { result.now ≡ drop (at + 1) lines.now }
{
    &lines[at + 1..]
}

fn is_taken(alloc: Global, lines: &[ViewLine], file: &DepotPath) -> Result<bool, AllocError>
    ensures { IfOk result (λ taken. taken ≡ taken_by_some lines.now file.now) }
{
    let mut rest = lines;
    while let [line, after @ ..] = rest {
        if line.takes(alloc, file)? {
            return Ok(true);
        }
        rest = after;
    }
    Ok(false)
}

/// Adds the file that a line puts at a client path that no line after it hides, if it decides for that file.
fn add_file(
    alloc: Global,
    files: &mut Sequence<DepotPath>,
    line: &ViewLine,
    later: &[ViewLine],
    path: &ClientPath,
) -> Result<(), AllocError>
    requires { hidden_by_some later.now path.now ≡ false }
    ensures { OnOk result (files.new ≡ files.old ++ file_by line.now later.now path.now (depot_file line.now path.now)) }
{
    if line.is_exclusion() {
        return Ok(());
    }
    if let Some(file) = line.depot_file(alloc, path)? {
        if !is_taken(alloc, later, &file)? {
            files.push(file)?;
        }
    }
    Ok(())
}

/// The files that lines put at a client path, that of the last line first, and whether one of these lines hides the
/// path.
fn gather(
    alloc: Global,
    lines: &[ViewLine],
    path: &ClientPath,
) -> Result<(Sequence<DepotPath>, bool), AllocError>
    ensures files { IfOk result (λ found. found.0 ≡ files_in lines.now path.now) }
    ensures hidden { IfOk result (λ found. found.1 ≡ hidden_by_some lines.now path.now) }
    ensures memory { OnErr result (some_client_fits lines.now path.now ≡ true) }
{
    let mut files = Sequence::new(alloc);
    let mut at = lines.len();
    while at > 0 {
        at -= 1;
        let line = &lines[at];
        if line.client.matches(path) {
            add_file(alloc, &mut files, line, lines_after(lines, at), path)?;
            if !line.is_overlay() {
                return Ok((files, true));
            }
        }
    }
    Ok((files, false))
}

/// The files that lines put at a client path, that of the last line first.
fn files_at(
    alloc: Global,
    lines: &[ViewLine],
    path: &ClientPath,
) -> Result<Sequence<DepotPath>, AllocError>
    ensures value { IfOk result (λ files. files ≡ files_in lines.now path.now) }
    ensures memory { OnErr result (some_client_fits lines.now path.now ≡ true) }
{
    let (files, _) = gather(alloc, lines, path)?;
    Ok(files)
}

/// Where a file is that a line takes to a client path, with the lines after it.
fn place(alloc: Global, later: &[ViewLine], path: ClientPath) -> Result<Mapped, AllocError>
    ensures { IfOk result (λ place. place ≡ at_path later.now (unhidden later.now (Some path))) }
{
    let (rivals, hidden) = gather(alloc, later, &path)?;
    if hidden {
        Ok(Mapped::Nothing)
    } else {
        Ok(Mapped::At { path, rivals })
    }
}

/// Where the last of the lines that takes a file puts it.
fn place_of(alloc: Global, lines: &[ViewLine], file: &DepotPath) -> Result<Mapped, AllocError>
    ensures value { IfOk result (λ place. place ≡ mapped lines.now file.now) }
    ensures memory { OnErr result (some_depot_fits lines.now file.now ≡ true) }
{
    let mut at = lines.len();
    while at > 0 {
        at -= 1;
        let line = &lines[at];
        if line.is_exclusion() {
            if line.depot.matches(file) {
                return Ok(Mapped::Nothing);
            }
        } else if let Some(path) = line.client_path(alloc, file)? {
            return place(alloc, lines_after(lines, at), path);
        }
    }
    Ok(Mapped::Nothing)
}

/// With which texts the files begin that the lines put at client paths with the start.
fn beginnings_of(
    alloc: Global,
    lines: &[ViewLine],
    start: &[u8],
) -> Result<Sequence<Text>, AllocError>
    ensures { IfOk result (λ texts. texts ≡ beginnings start.now lines.now) }
{
    let mut texts = Sequence::new(alloc);
    let mut rest = lines;
    while let [line, after @ ..] = rest {
        if let Some(text) = line.beginning(alloc, start)? {
            texts.push(text)?;
        }
        rest = after;
    }
    Ok(texts)
}

impl View {
    /// Reads a view of the client, a line from each text. More than 200 lines are `TooManyLines`, whatever they are;
    /// else it answers the first bad line, by its fault.
    pub fn from_lines(alloc: Global, client: &Name, lines: &[Text]) -> Result<Self, ViewFault>
        ensures { Answers no_memory result (view_of client.now lines.now) }
    {
        if lines.len() > LINES {
            return Err(ViewFault {
                what: ViewCause::TooManyLines,
                line: LINES + 1,
            });
        }
        let Ok(root) = root_of(alloc, client) else {
            return Err(fault_after(0, ViewCause::Memory));
        };
        match read_lines(alloc, root.as_bytes(), lines) {
            Ok(lines) => Ok(View { lines }),
            Err(fault) => Err(fault),
        }
    }

    /// The lines, both sides of each with the same specifiers.
    pub fn lines(&self) -> &[ViewLine]
        ensures lines { result.now ≡ self.now }
        ensures paired { list_all is_paired self.now ≡ true }
    {
        self.lines.as_slice()
    }

    /// The client path of a file, with its rivals: the files that later overlay lines put there too. It looks at the
    /// lines from the last until one takes the file; a file that no line's depot side fits takes no memory.
    pub fn to_client(&self, alloc: Global, file: &DepotPath) -> Result<Mapped, AllocError>
        ensures value { IfOk result (λ place. place ≡ mapped self.now file.now) }
        ensures memory { OnErr result (some_depot_fits self.now file.now ≡ true) }
        ensures rivals_first { (path : List ℕ) (rivals : List (List ℕ)) → mapped self.now file.now ≡ At path rivals →
            (others : List (List ℕ)) × (files_in self.now path ≡ rivals ++ file.now ∷ others) }
    {
        // the bytes of a path are one
        let _bytes = file.as_bytes();
        place_of(alloc, self.lines(), file)
    }

    /// The files mapped to a client path, that of the last line first; several only by overlay lines. It looks at the
    /// lines from the last until one hides the path from those before it; a path that no line's client side fits takes
    /// no memory.
    pub fn to_depot(
        &self,
        alloc: Global,
        path: &ClientPath,
    ) -> Result<Sequence<DepotPath>, AllocError>
        ensures value { IfOk result (λ files. files ≡ files_in self.now path.now) }
        ensures memory { OnErr result (some_client_fits self.now path.now ≡ true) }
        ensures exactly { (file : List ℕ) → is_path file ≡ true →
            Contains (files_in self.now path.now) file ↔ (path_in self.now file ≡ Some path.now) }
        ensures once { IsDistinct same (files_in self.now path.now) }
    {
        // the bytes of a path are one
        let _bytes = path.as_bytes();
        files_at(alloc, self.lines(), path)
    }

    /// With which texts the files begin, as they are printed, whose client paths begin with `start` as they are
    /// printed: a text for each line that may put files there. In path order the files that begin with a text stand
    /// together, from it on.
    pub fn beginnings(&self, alloc: Global, start: &[u8]) -> Result<Sequence<Text>, AllocError>
        ensures value { IfOk result (λ texts. texts ≡ beginnings start.now self.now) }
        ensures every { (file path : List ℕ) → path_in self.now file ≡ Some path →
            begins_with (printed path) start.now ≡ true →
            list_any (begins_with (printed file)) (beginnings start.now self.now) ≡ true }
    {
        beginnings_of(alloc, self.lines(), start)
    }
}
