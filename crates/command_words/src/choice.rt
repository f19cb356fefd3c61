//! Which form of a command its options choose.

ghost use Rattle.std.specs.Prelude.{◌≡◌};
ghost use Rattle.depot_path.specs.Answers.{Answers};
ghost use Rattle.command_words.specs.Table.{seen_row, seen_rows, seen_choices, table};
ghost use Rattle.command_words.specs.Options.{seen_options};
ghost use Rattle.command_words.specs.Choice as spec;

use crate::options::{Given, was_given};
use crate::table::{Choice, Form, Row, forms, kind_in_form};
use crate::values::bad_usage;
use depot_model::WordFault;
use std::alloc::Global;

/// Whether each of these options was given.
fn has_all(mut choices: &[Choice], options: &[Given]) -> bool
    ensures { result ≡ spec.has_all (seen_choices choices.entry.now) (seen_options options.now) }
{
    while let [choice, rest @ ..] = choices {
        if !was_given(options, choice.0) {
            return false;
        }
        choices = rest;
    }
    true
}

/// Whether no other options were given than the form's.
fn has_only(row: &Row, mut options: &[Given]) -> bool
    ensures { result ≡ spec.has_only (seen_row row.now) (seen_options options.entry.now) }
{
    while let [given, rest @ ..] = options {
        if kind_in_form(row, given.option).is_none() {
            return false;
        }
        options = rest;
    }
    true
}

/// Whether the options are those of the form.
fn suits(row: &Row, command: &[u8], options: &[Given]) -> bool
    ensures { result ≡ spec.suits (seen_row row.now) command.now (seen_options options.now) }
{
    row.0 == command && has_all(row.2, options) && has_only(row, options)
}

/// The first form that the options suit, and whether an input block belongs to it.
fn form_in(mut rows: &[Row], command: &[u8], options: &[Given]) -> Option<(Form, bool)>
    ensures { result ≡ spec.form_in (seen_rows rows.entry.now) command.now (seen_options options.now) }
{
    while let [row, rest @ ..] = rows {
        if suits(row, command, options) {
            return Some((row.1, row.4));
        }
        rows = rest;
    }
    None
}

/// Whether there is an input block exactly where one belongs to the form.
fn input_fits(takes_input: bool, has_input: bool) -> bool
    ensures { result ≡ spec.input_fits takes_input has_input }
{
    if takes_input { has_input } else { !has_input }
}

/// The form of a command with these options and with an input block or without one.
#[tactic(auto, using(depot_path::proofs::Answers::right))]
pub fn form_of(
    alloc: Global,
    command: &[u8],
    options: &[Given],
    has_input: bool,
) -> Result<Form, WordFault>
    ensures { Answers WordFault.Memory result (spec.form_of command.now (seen_options options.now) has_input) }
{
    match form_in(forms(), command, options) {
        Some((form, takes_input)) => {
            if input_fits(takes_input, has_input) {
                Ok(form)
            } else {
                bad_usage(alloc, command)
            }
        }
        None => bad_usage(alloc, command),
    }
}
