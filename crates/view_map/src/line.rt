//! The lines of client views.

ghost use Rattle.std.specs.Prelude.{◌≡◌, ◌<◌, true, Ok, Err, None, Some, IfOk, IfNone, IfSome, length, position};
ghost use Rattle.std.specs.List.{list_all};
ghost use Rattle.depot_path.specs.Answers.{Answers};
ghost use Rattle.depot_path.specs.Bytes.{begins_with};
ghost use Rattle.depot_path.specs.Pattern.{literal};
ghost use Rattle.view_map.specs.Carry.{is_paired, is_exclusion as exclusion_test, is_overlay as overlay_test};
ghost use Rattle.view_map.specs.Reading.{begins_quoted as quoted_test, quoted_side as side_in_quotes, side_at as side_in, sign_of as sign_in, unsigned as without_sign, first_side as first_in, without_spaces as spaceless, is_space, is_quote, sides_of as sides_in, side_of, root_of as root_in, line_with, line_of};

use crate::fault::ViewCause;
use crate::specifiers::same_specifiers;
use depot_path::{Name, PathFault, Pattern, Piece, Text};
use std::alloc::{AllocError, Global};

/// What a line of a view does, by the sign before it (Command-Line Reference, "Views").
#[derive(Clone, Copy, PartialEq, Eq)]
pub enum Sign {
    /// No sign: it maps files, and no earlier line puts a file where this one may.
    Plain,
    /// `+`: it maps files, and leaves those of earlier lines where they are.
    Overlay,
    /// `-`: the files that it takes have no client path.
    Exclusion,
}

/// A line of a view.
#[derive(Drop)]
pub struct ViewLine {
    /// What it does.
    pub sign: Sign,
    /// The depot side: which files it takes.
    pub depot: Pattern,
    /// The client side: to which client paths it takes them.
    pub client: Pattern,
}

fn begins_quoted(text: &[u8]) -> bool
    ensures { result ≡ quoted_test text.now }
{
    text.starts_with(b"\"")
}

fn quote_in(text: &[u8]) -> Option<usize>
    ensures value { result ≡ position is_quote text.now }
    ensures within { IfSome result (λ at. at < length text.now) }
{
    text.iter().position(|byte| *byte == b'"')
}

fn space_in(text: &[u8]) -> Option<usize>
    ensures value { result ≡ position is_space text.now }
    ensures within { IfSome result (λ at. at < length text.now) }
{
    text.iter().position(|byte| *byte == b' ')
}

/// What stands before the first quote, and what follows it.
fn quoted_side(text: &[u8]) -> Option<(&[u8], &[u8])>
    ensures none { IfNone result (side_in_quotes text.now ≡ None) }
    ensures some { IfSome result (λ found. side_in_quotes text.now ≡ Some (found.0.now, found.1.now)) }
{
    match quote_in(text) {
        Some(at) => Some((&text[..at], &text[at + 1..])),
        None => None,
    }
}

/// The side with which a text begins, and what follows it.
fn side_at(text: &[u8]) -> Option<(&[u8], &[u8])>
    ensures none { IfNone result (side_in text.now ≡ None) }
    ensures some { IfSome result (λ found. side_in text.now ≡ Some (found.0.now, found.1.now)) }
{
    if begins_quoted(text) {
        return quoted_side(&text[1..]);
    }
    match space_in(text) {
        Some(at) => Some((&text[..at], &text[at..])),
        None => Some((text, &[])),
    }
}

/// The sign of a line, which stands before its first side or just inside its quote.
fn sign_of(text: &[u8]) -> Sign
    ensures { result ≡ sign_in text.now }
{
    let rest = if begins_quoted(text) {
        &text[1..]
    } else {
        text
    };
    if rest.starts_with(b"-") {
        Sign::Exclusion
    } else if rest.starts_with(b"+") {
        Sign::Overlay
    } else {
        Sign::Plain
    }
}

fn unsigned(text: &[u8]) -> &[u8]
    ensures { result.now ≡ without_sign text.now }
{
    if text.starts_with(b"-") || text.starts_with(b"+") {
        &text[1..]
    } else {
        text
    }
}

/// The side with which a line begins, without its sign, and what follows it.
fn first_side(text: &[u8]) -> Option<(&[u8], &[u8])>
    ensures none { IfNone result (first_in text.now ≡ None) }
    ensures some { IfSome result (λ found. first_in text.now ≡ Some (found.0.now, found.1.now)) }
{
    if begins_quoted(text) {
        quoted_side(unsigned(&text[1..]))
    } else {
        side_at(unsigned(text))
    }
}

fn without_spaces(text: &[u8]) -> &[u8]
    ensures { result.now ≡ spaceless text.now }
{
    let mut rest = text;
    while let [b' ', after @ ..] = rest {
        rest = after;
    }
    rest
}

fn is_blank(text: &[u8]) -> bool
    ensures { result ≡ list_all is_space text.now }
{
    text.iter().all(|byte| *byte == b' ')
}

/// The two sides of a line, without its sign and the quotes.
fn sides_of(text: &[u8]) -> Option<(&[u8], &[u8])>
    ensures none { IfNone result (sides_in text.now ≡ None) }
    ensures some { IfSome result (λ sides. sides_in text.now ≡ Some (sides.0.now, sides.1.now)) }
{
    let (depot, after) = first_side(text)?;
    if !after.starts_with(b" ") {
        return None;
    }
    let (client, after) = side_at(without_spaces(after))?;
    if is_blank(after) {
        Some((depot, client))
    } else {
        None
    }
}

fn read_side(alloc: Global, text: &[u8]) -> Result<Pattern, ViewCause>
    ensures { Answers ViewCause.Memory result (side_of text.now) }
{
    match Pattern::read(alloc, text, true) {
        Ok(side) => Ok(side),
        Err(PathFault::Memory) => Err(ViewCause::Memory),
        Err(_) => Err(ViewCause::BadLine),
    }
}

/// Whether the pieces begin with these bytes, before any specifier.
fn begins_with_bytes(pieces: &[Piece], bytes: &[u8]) -> bool
    ensures { result ≡ begins_with (literal pieces.now) bytes.now }
{
    let mut rest = pieces;
    let mut expected = bytes;
    while let [byte, others @ ..] = expected {
        match rest {
            [Piece::Byte(first), after @ ..] if *first == *byte => {
                rest = after;
                expected = others;
            }
            _ => return false,
        }
    }
    true
}

/// What each client side of the client's view begins with.
pub(crate) fn root_of(alloc: Global, client: &Name) -> Result<Text, AllocError>
    ensures { IfOk result (λ root. root ≡ root_in client.now) }
{
    let mut root = Text::from_bytes(alloc, b"//")?;
    root.append(client.as_bytes())?;
    root.append(b"/")?;
    Ok(root)
}

fn line_of_sides(
    root: &[u8],
    sign: Sign,
    depot: Pattern,
    client: Pattern,
) -> Result<ViewLine, ViewCause>
    ensures value { result ≡ line_with root.now sign depot client }
    ensures paired { IfOk result (λ line. is_paired line ≡ true) }
{
    if !same_specifiers(&depot, &client) {
        Err(ViewCause::UnequalSpecifiers)
    } else if !begins_with_bytes(client.pieces(), root) {
        Err(ViewCause::WrongRoot)
    } else {
        Ok(ViewLine {
            sign,
            depot,
            client,
        })
    }
}

impl ViewLine {
    /// Reads a line whose client side is to begin with `root`. Of several faults it answers that which stands first in
    /// this order: `BadLine`, `UnequalSpecifiers`, `WrongRoot`.
    #[tactic(auto, using(depot_path::proofs::Answers::right, depot_path::proofs::Answers::after, depot_path::proofs::Answers::fails))]
    pub(crate) fn read(alloc: Global, root: &[u8], text: &[u8]) -> Result<Self, ViewCause>
        ensures value { Answers ViewCause.Memory result (line_of root.now text.now) }
        ensures paired { IfOk result (λ line. is_paired line ≡ true) }
    {
        let Some((depot, client)) = sides_of(text) else {
            return Err(ViewCause::BadLine);
        };
        let depot = read_side(alloc, depot)?;
        let client = read_side(alloc, client)?;
        line_of_sides(root, sign_of(text), depot, client)
    }

    pub(crate) fn is_exclusion(&self) -> bool
        ensures { result ≡ exclusion_test self.now.sign }
    {
        match self.sign {
            Sign::Exclusion => true,
            Sign::Plain | Sign::Overlay => false,
        }
    }

    pub(crate) fn is_overlay(&self) -> bool
        ensures { result ≡ overlay_test self.now.sign }
    {
        match self.sign {
            Sign::Overlay => true,
            Sign::Plain | Sign::Exclusion => false,
        }
    }
}
