//! The forms of shelved files.

ghost use Rattle.std.specs.Prelude.{◌≡◌, ◌++◌, ◌∷◌, [], ℕ, List, Some, codes, decimal, flat_map, option_map, IfOk, OnOk};
ghost use Rattle.std.specs.Option.{option_copied};
ghost use Rattle.depot_rows.specs.depot_path.Path.{printed};
ghost use Rattle.depot_rows.specs.spec_form.Form.{value_lines};
ghost use Rattle.depot_rows.specs.spec_form.Printing.{tabbed};
ghost use Rattle.depot_rows.specs.depot_model.Deeds.{Deed};
ghost use Rattle.depot_rows.specs.depot_model.Opened.{opened};
ghost use Rattle.depot_rows.specs.depot_model.Rules.{IsSound};
ghost use Rattle.depot_rows.specs.depot_model.Shelves as model;
ghost use Rattle.depot_rows.specs.depot_model.Values.{valued};
ghost use Rattle.depot_rows.specs.Deed.{opening_of, source_of};
ghost use Rattle.shelf_ops.specs.Forms.{fields_text, opened_fields, owner_fields};

use depot_rows::forms::{Form, Shape};
use depot_rows::model::Caller;
use depot_rows::paths::{DepotPath, Text};
use depot_rows::{Opening, Source};
use itoa::Buffer;
use opening_parts::action_word;
use std::alloc::{AllocError, Global};

/// Adds what stands behind the colon of a single field with a value.
fn push_value(text: &mut Text, value: &[u8]) -> Result<(), AllocError>
    ensures { OnOk result (text.new ≡ text.old ++ flat_map tabbed (value_lines value.now)) }
{
    if value.is_empty() {
        return Ok(());
    }
    text.append(b"\t")?;
    text.append(value)?;
    Ok(())
}

/// Adds a single field with a value to the text of a form.
fn push_field(text: &mut Text, name: &[u8], value: &[u8]) -> Result<(), AllocError>
    ensures { OnOk result (text.new ≡ text.old ++ fields_text (valued name.now value.now ∷ [])) }
{
    text.append(name)?;
    text.append(b":")?;
    push_value(text, value)?;
    text.append(b"\n\n")?;
    Ok(())
}

/// Adds the fields with the path of a file and the number of a change.
fn push_file(
    text: &mut Text,
    alloc: Global,
    change: u32,
    path: &DepotPath,
) -> Result<(), AllocError>
    ensures { OnOk result (text.new ≡ text.old ++
        fields_text (valued (codes "Path") (printed path.now) ∷ valued (codes "Change") (decimal change) ∷ [])) }
{
    let file = path.print(alloc)?;
    push_field(text, b"Path", file.as_bytes())?;
    push_field(text, b"Change", Buffer::new().format(change).as_bytes())?;
    Ok(())
}

/// The text of the form of a file that is kept in a change no more.
fn gone_text(alloc: Global, change: u32, path: &DepotPath) -> Result<Text, AllocError>
    ensures { IfOk result (λ text. text ≡ fields_text (model.gone_form change path.now).fields) }
{
    let mut text = Text::new(alloc);
    push_file(&mut text, alloc, change, path)?;
    push_field(&mut text, b"State", b"gone")?;
    Ok(text)
}

/// The form of a file that is kept in a change no more. The one error is want of memory.
pub(crate) fn gone_form(alloc: Global, change: u32, path: &DepotPath) -> Result<Form, AllocError>
    ensures { IfOk result (λ form. form ≡ model.gone_form change path.now) }
{
    // the bytes of a path are one
    let _bytes = path.as_bytes();
    let text = gone_text(alloc, change, path)?;
    match Form::read(alloc, text.as_bytes(), Shape::Shelf) {
        Ok(form) => Ok(form),
        Err(_) => Err(AllocError),
    }
}

/// Adds the fields with the caller who keeps a file, and that it is kept.
fn push_owner(text: &mut Text, caller: &Caller) -> Result<(), AllocError>
    ensures { OnOk result (text.new ≡ text.old ++ fields_text (owner_fields caller.now)) }
{
    push_field(text, b"Client", caller.client.as_bytes())?;
    push_field(text, b"User", caller.user.as_bytes())?;
    push_field(text, b"State", b"kept")?;
    Ok(())
}

/// Adds the fields with the action, the type and the base of an opened file.
fn push_opened(text: &mut Text, opening: &Opening) -> Result<(), AllocError>
    ensures { OnOk result (text.new ≡ text.old ++ fields_text (opened_fields (opening_of opening.now))) }
{
    push_field(text, b"Action", action_word(opening.action))?;
    push_field(text, b"Type", opening.file_type.as_bytes())?;
    push_field(text, b"Base", Buffer::new().format(opening.base).as_bytes())?;
    Ok(())
}

/// Adds the fields with the revision whose content a submit takes, where there is one.
fn push_source(text: &mut Text, alloc: Global, source: &Option<Source>) -> Result<(), AllocError>
    ensures { OnOk result (text.new ≡ text.old ++ fields_text (model.source_fields (option_map source_of source.now))) }
{
    match source {
        Some(source) => {
            let file = source.path.print(alloc)?;
            push_field(text, b"From", file.as_bytes())?;
            push_field(
                text,
                b"FromRev",
                Buffer::new().format(source.rev).as_bytes(),
            )?;
            Ok(())
        }
        None => Ok(()),
    }
}

/// Adds the field with a block: `x` and its bytes in lower-case hexadecimal digits.
fn push_block(text: &mut Text, alloc: Global, block: &Text) -> Result<(), AllocError>
    ensures { OnOk result (text.new ≡ text.old ++ fields_text (model.content_fields (Some block.now))) }
{
    let digits = hex::encode(alloc, block.as_bytes())?;
    text.append(b"Content:\tx")?;
    text.append(digits.as_bytes())?;
    text.append(b"\n\n")?;
    Ok(())
}

/// Adds the field with the block that gave a content, where one did.
fn push_content(text: &mut Text, alloc: Global, block: Option<&Text>) -> Result<(), AllocError>
    ensures { OnOk result (text.new ≡ text.old ++ fields_text (model.content_fields (option_copied block.entry))) }
{
    match block {
        Some(block) => {
            push_block(text, alloc, block)?;
            Ok(())
        }
        None => Ok(()),
    }
}

/// The text of the form of a file that a caller keeps in the change in which it is opened.
fn kept_text(
    alloc: Global,
    caller: &Caller,
    opening: &Opening,
    block: Option<&Text>,
) -> Result<Text, AllocError>
    ensures { IfOk result (λ text. text ≡
        fields_text (model.kept_form caller.now (opening_of opening.now) (option_copied block.entry)).fields) }
{
    let mut text = Text::new(alloc);
    push_file(&mut text, alloc, opening.change, &opening.path)?;
    push_owner(&mut text, caller)?;
    push_opened(&mut text, opening)?;
    push_source(&mut text, alloc, &opening.source)?;
    push_content(&mut text, alloc, block)?;
    Ok(text)
}

/// The form of a file that a caller keeps in the change in which a client has it opened, with the block that gave its
/// content, where one did. The one error is want of memory.
pub(crate) fn shelf_form(
    alloc: Global,
    caller: &Caller,
    opening: &Opening,
    block: Option<&Text>,
) -> Result<Form, AllocError>
    ensures { IfOk result (λ form. (d : List Deed) (client path : List ℕ) → IsSound d →
        opened d client path ≡ Some (opening_of opening.now) →
        form ≡ model.kept_form caller.now (opening_of opening.now) (option_copied block.entry)) }
{
    // the bytes of names are those of names
    let _user = caller.user.as_bytes();
    let _client = caller.client.as_bytes();
    let text = kept_text(alloc, caller, opening, block)?;
    match Form::read(alloc, text.as_bytes(), Shape::Shelf) {
        Ok(form) => Ok(form),
        Err(_) => Err(AllocError),
    }
}
