//! What the form of a file that is kept in a change says of its opening (Command-Line Reference, "p4 unshelve").

ghost use Rattle.std.specs.Prelude.{◌≡◌, ◌≤◌, ℕ, List, Some, IfOk, codes, option_map};
ghost use Rattle.depot_rows.specs.depot_path.Digits.{number_of};
ghost use Rattle.depot_rows.specs.depot_model.Deeds.{Deed};
ghost use Rattle.depot_rows.specs.depot_model.Rules.{IsSound};
ghost use Rattle.depot_rows.specs.depot_model.Shelves as model;
ghost use Rattle.depot_rows.specs.depot_model.Values.{value_of};
ghost use Rattle.depot_rows.specs.Deed.{action_of, opening_of as opening_of_deed, source_of as source_of_deed};
ghost use Rattle.opening_reads.specs.Read.{source_at as source_of_path};
ghost use Rattle.shelf_ops.specs.Unshelved.{line_block, word_action};

use depot_rows::forms::Form;
use depot_rows::model::Caller;
use depot_rows::paths::{DepotPath, Text, value_up_to};
use depot_rows::{Action, Opening, Source};
use hex::FromHexError;
use opening_parts::{own_name, own_path};
use opening_reads::path_in;
use row_reads::form_value;
use std::alloc::{AllocError, Global};

/// The number that digits spell, where it is at most 4,294,967,295; a number in the form of a shelved file of a sound
/// depot is so small.
fn number_in(digits: &[u8]) -> u32
    ensures { number_of digits.now ≤ 4294967295 → result ≡ number_of digits.now }
{
    match value_up_to(4294967295, digits) {
        Some(number) => number as u32,
        None => 0,
    }
}

/// The action of a word.
fn action_in(word: &[u8]) -> Action
    ensures { result ≡ word_action word.now }
{
    if b"add".as_slice() == word {
        Action::Add
    } else if b"edit".as_slice() == word {
        Action::Edit
    } else if b"delete".as_slice() == word {
        Action::Delete
    } else {
        Action::Add
    }
}

/// The action of a file that is kept.
fn kept_action(form: &Form) -> Action
    ensures { action_of result ≡ model.kept_action form.now }
{
    let word = form_value(form, "Action");
    let action = action_in(word);
    action
}

/// The base of a file that is kept.
fn kept_base(form: &Form) -> u32
    ensures { model.kept_base form.now ≤ 4294967295 → result ≡ model.kept_base form.now }
{
    let digits = form_value(form, "Base");
    let base = number_in(digits);
    base
}

/// The revision of a path, if there is one.
fn source_at(path: Option<DepotPath>, rev: u32) -> Option<Source>
    ensures { result ≡ option_map (source_of_path rev) path }
{
    match path {
        Some(path) => Some(Source { path, rev }),
        None => None,
    }
}

/// The revision whose content a submit takes, where the form tells one.
fn kept_source(alloc: Global, form: &Form) -> Result<Option<Source>, AllocError>
    ensures { IfOk result (λ source. number_of (value_of form.now (codes "FromRev")) ≤ 4294967295 →
        option_map source_of_deed source ≡ model.kept_source form.now) }
{
    let from = form_value(form, "From");
    let digits = form_value(form, "FromRev");
    let text = Text::from_bytes(alloc, from)?;
    let path = path_in(alloc, &text)?;
    let rev = number_in(digits);
    let source = source_at(path, rev);
    Ok(source)
}

/// The block of which a line gives the digits behind its first byte.
fn block_in_line(alloc: Global, line: &[u8]) -> Result<Option<Text>, AllocError>
    ensures { IfOk result (λ block. block ≡ line_block line.now) }
{
    let digits = line.get(1..).unwrap_or(&[]);
    match hex::decode(alloc, digits) {
        Ok(block) => Ok(Some(Text::from_vec(block))),
        Err(FromHexError::OutOfMemory) => Err(AllocError),
        Err(_) => Ok(None),
    }
}

/// The block in the first of some lines.
fn block_in(alloc: Global, lines: &[Text]) -> Result<Option<Text>, AllocError>
    ensures { IfOk result (λ block. block ≡ model.block_in lines.now) }
{
    match lines {
        [line, ..] => block_in_line(alloc, line.as_bytes()),
        [] => Ok(None),
    }
}

/// The block that gave the content of a file that is kept, where one did. The one error is want of memory.
pub(crate) fn kept_block(alloc: Global, form: &Form) -> Result<Option<Text>, AllocError>
    ensures { IfOk result (λ block. block ≡ model.kept_block form.now) }
{
    let lines = form.lines("Content");
    let block = block_in(alloc, lines)?;
    Ok(block)
}

/// The opening in a change, 0 for the default one, of a file that is kept, by its form. The one error is want of
/// memory.
pub(crate) fn kept_opening(
    alloc: Global,
    caller: &Caller,
    change: u32,
    path: &DepotPath,
    form: &Form,
) -> Result<Opening, AllocError>
    ensures { IfOk result (λ opening. (d : List Deed) (n : ℕ) → IsSound d → model.kept d n path.now ≡ Some form.now →
        opening_of_deed opening ≡ model.kept_opening caller.now change path.now form.now) }
{
    let client = own_name(&caller.client)?;
    let file = own_path(path)?;
    let base = kept_base(form);
    let action = kept_action(form);
    let word = form_value(form, "Type");
    let file_type = Text::from_bytes(alloc, word)?;
    let source = kept_source(alloc, form)?;
    Ok(Opening {
        client,
        path: file,
        base,
        action,
        file_type,
        change,
        source,
        moved: None,
    })
}
