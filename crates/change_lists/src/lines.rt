//! The fields of the form of a change (Command-Line Reference, "p4 change").

ghost use Rattle.std.specs.Prelude.{◌≡◌, ◌++◌, true, None, IfOk, map};
ghost use Rattle.std.specs.List.{join_with_byte};
ghost use Rattle.depot_rows.specs.depot_path.Revision.{small_number as number_in};
ghost use Rattle.depot_rows.specs.depot_model.Steps.Changing as model;
ghost use Rattle.opening_reads.specs.Read.{path_in_text};
ghost use Rattle.change_lists.specs.Lines.{first_bad};

use depot_rows::forms::Form;
use depot_rows::paths::{DepotPath, Sequence, Text, number_up_to};
use opening_reads::path_in;
use row_reads::form_value;
use std::alloc::{AllocError, Global};

/// The number that a word of digits spells, up to 2,147,483,647.
fn small_number(word: &[u8]) -> Option<u32>
    ensures { result ≡ number_in word.now }
{
    match number_up_to(2147483647, word) {
        Some(number) => Some(number as u32),
        None => None,
    }
}

/// Whether a form names a change by its number, or asks by `new` for a new one.
pub(crate) fn has_number(form: &Form) -> bool
    ensures { result ≡ model.has_number form.now }
{
    let value = form_value(form, "Change");
    value == b"new".as_slice() || small_number(value).is_some()
}

/// The change that a form names, None where it asks for a new one.
pub(crate) fn form_number(form: &Form) -> Option<u32>
    ensures { model.has_number form.now ≡ true → result ≡ model.form_number form.now }
{
    let value = form_value(form, "Change");
    if value == b"new".as_slice() {
        return None;
    }
    small_number(value)
}

/// What stands before the first tab of a line.
fn before_tab(line: &[u8]) -> &[u8]
    ensures { result.now ≡ model.path_before_tab line.now }
{
    let mut n = 0;
    while n < line.len() {
        if line[n] == b'\t' {
            return &line[..n];
        }
        n += 1;
    }
    line
}

/// The path in a line of Files, None where there is none.
fn path_of_line(alloc: Global, line: &[u8]) -> Result<Option<DepotPath>, AllocError>
    ensures { IfOk result (λ path. path ≡ path_in_text (model.path_before_tab line.now)) }
{
    let text = Text::from_bytes(alloc, before_tab(line))?;
    let path = path_in(alloc, &text)?;
    Ok(path)
}

/// Adds the paths in lines of Files, up to the first line that has none: then its place among them, from 0.
pub(crate) fn push_paths(
    alloc: Global,
    paths: &mut Sequence<DepotPath>,
    lines: &[Text],
) -> Result<Option<usize>, AllocError>
    ensures bad { IfOk result (λ bad. bad ≡ first_bad 0 lines.now) }
    ensures paths { IfOk result (λ bad. bad ≡ None → paths.new ≡ paths.old ++ map model.listed_path lines.now) }
{
    let mut rest = lines;
    let mut index = 0;
    while let [line, later @ ..] = rest {
        match path_of_line(alloc, line.as_bytes())? {
            Some(path) => paths.push(path)?,
            None => return Ok(Some(index)),
        }
        rest = later;
        index += 1;
    }
    Ok(None)
}

/// Lines as one text.
pub(crate) fn joined(alloc: Global, lines: &[Text]) -> Result<Text, AllocError>
    ensures { IfOk result (λ text. text ≡ join_with_byte 0x0A lines.now) }
{
    let [first, rest @ ..] = lines else {
        return Ok(Text::new(alloc));
    };
    let mut text = Text::from_bytes(alloc, first.as_bytes())?;
    let mut rest = rest;
    while let [line, later @ ..] = rest {
        text.append(b"\n")?;
        text.append(line.as_bytes())?;
        rest = later;
    }
    Ok(text)
}
