//! The first line of a script.

ghost use Rattle.std.specs.Prelude.{◌≡◌, ◌<◌, ◌∷◌, [], length, is_ok, IsTrue, IfOk, IfSome, IfNone};
ghost use Rattle.depot_model.specs.Filter.{filter_of};
ghost use Rattle.depot_model.specs.depot_path.Name.{is_name as name_test};
ghost use Rattle.wire_text.specs.Parts.{texts, parted};
ghost use Rattle.wire_text.specs.Head.{head_of, head_of_parts, session_head, replica_head, are_names, client_of};

use crate::parts::cut_at;
use depot_model::paths::{Name, PathFault, Pattern, Sequence, Text, is_name};
use depot_model::{Caller, Filter};
use std::alloc::{AllocError, Global};

/// Who a script speaks for.
#[derive(Drop)]
pub enum Head {
    /// A session with the depot.
    Session(Caller),
    /// A replica of the depot.
    Replica {
        /// Who asks.
        caller: Caller,
        /// Which files the replica has: patterns, each with a `-` before it where it keeps files out.
        patterns: Sequence<Text>,
    },
}

impl Head {
    /// The name of the client workspace.
    pub fn client(&self) -> &Name
        ensures { result.now ≡ client_of self.now }
    {
        match self {
            Head::Session(caller) => &caller.client,
            Head::Replica { caller, .. } => &caller.client,
        }
    }
}

/// The most patterns of a replica's head.
const MAX_PATTERNS: usize = 60;

/// The name that the bytes are.
fn name_of(alloc: Global, bytes: &[u8]) -> Result<Name, AllocError>
    requires { IsTrue (name_test bytes.now) }
    ensures { IfOk result (λ name. name ≡ bytes.now) }
{
    match Name::read(alloc, bytes) {
        Ok(name) => Ok(name),
        Err(_) => Err(AllocError),
    }
}

/// The caller of three names.
fn make_caller(alloc: Global, user: &[u8], client: &[u8], host: &[u8]) -> Result<Caller, AllocError>
    requires user { IsTrue (name_test user.now) }
    requires client { IsTrue (name_test client.now) }
    requires host { IsTrue (name_test host.now) }
    ensures { IfOk result (λ caller. caller ≡ record { user = user.now; client = client.now; host = host.now }) }
{
    let user = name_of(alloc, user)?;
    let client = name_of(alloc, client)?;
    let host = name_of(alloc, host)?;
    Ok(Caller { user, client, host })
}

/// The caller of these three names, where they are names.
fn caller_of(
    alloc: Global,
    user: &[u8],
    client: &[u8],
    host: &[u8],
) -> Result<Option<Caller>, AllocError>
    ensures { IfOk result (λ caller. caller ≡ are_names user.now client.now host.now) }
{
    if is_name(user) && is_name(client) && is_name(host) {
        Ok(Some(make_caller(alloc, user, client, host)?))
    } else {
        Ok(None)
    }
}

/// Whether these are the patterns of a filter.
fn is_filter(alloc: Global, words: &[Text]) -> Result<bool, AllocError>
    ensures { IfOk result (λ is. is ≡ is_ok (filter_of words.now)) }
{
    match Filter::read(alloc, words) {
        Ok(_) => Ok(true),
        Err(PathFault::Memory) => Err(AllocError),
        Err(_) => Ok(false),
    }
}

/// Copies of these bytes.
fn copies(alloc: Global, parts: &[&[u8]]) -> Result<Sequence<Text>, AllocError>
    ensures { IfOk result (λ copies. copies ≡ texts parts.now) }
{
    let mut copies = Sequence::new(alloc);
    for part in parts {
        copies.push(Text::from_bytes(alloc, part)?)?;
    }
    Ok(copies)
}

/// The head of a session with these words after the first.
fn session(
    alloc: Global,
    user: &[u8],
    client: &[u8],
    host: &[u8],
    more: &[&[u8]],
) -> Result<Option<Head>, AllocError>
    ensures { IfOk result (λ head. head ≡ session_head user.now client.now host.now (texts more.now)) }
{
    match more {
        [] => match caller_of(alloc, user, client, host)? {
            Some(caller) => Ok(Some(Head::Session(caller))),
            None => Ok(None),
        },
        [_, ..] => Ok(None),
    }
}

/// The head of a replica with these words after the first.
fn replica(
    alloc: Global,
    client: &[u8],
    user: &[u8],
    host: &[u8],
    patterns: &[&[u8]],
) -> Result<Option<Head>, AllocError>
    ensures { IfOk result (λ head. head ≡ replica_head client.now user.now host.now (texts patterns.now)) }
{
    if patterns.is_empty() || patterns.len() > MAX_PATTERNS {
        return Ok(None);
    }
    let patterns = copies(alloc, patterns)?;
    if !is_filter(alloc, patterns.as_slice())? {
        return Ok(None);
    }
    match caller_of(alloc, user, client, host)? {
        Some(caller) => Ok(Some(Head::Replica { caller, patterns })),
        None => Ok(None),
    }
}

/// The head of these words.
fn head_of_words(
    alloc: Global,
    word: &[u8],
    first: &[u8],
    second: &[u8],
    third: &[u8],
    more: &[&[u8]],
) -> Result<Option<Head>, AllocError>
    ensures { IfOk result (λ head. head ≡ head_of_parts (word.now ∷ first.now ∷ second.now ∷ third.now ∷ texts more.now)) }
{
    if word == b"session".as_slice() {
        session(alloc, first, second, third, more)
    } else if word == b"replica".as_slice() {
        replica(alloc, first, second, third, more)
    } else {
        Ok(None)
    }
}

/// The part before the first space, and what stands behind it, if there is a space.
fn cut_part(text: &[u8]) -> Option<(&[u8], &[u8])>
    ensures parts { IfSome result (λ cut. parted text.now ≡ cut.0.now ∷ parted cut.1.now) }
    ensures shorter { IfSome result (λ cut. length cut.1.now < length text.now) }
    ensures whole { IfNone result (parted text.now ≡ text.now ∷ []) }
{
    match cut_at(b' ', text) {
        Some((part, behind)) => Some((part, behind)),
        None => None,
    }
}

/// What stands between the spaces of a line.
fn parts(alloc: Global, line: &[u8]) -> Result<Vec<&[u8]>, AllocError>
    ensures { IfOk result (λ parts. texts parts.items ≡ parted line.now) }
{
    let mut parts = Vec::new(alloc);
    let mut rest = line;
    while let Some((part, after)) = cut_part(rest) {
        parts.push(part)?;
        rest = after;
    }
    parts.push(rest)?;
    Ok(parts)
}

/// The head that a line spells, if it is one's.
pub(crate) fn read_head_line(alloc: Global, line: &[u8]) -> Result<Option<Head>, AllocError>
    ensures { IfOk result (λ head. head ≡ head_of line.now) }
{
    let parts = parts(alloc, line)?;
    match parts.as_slice() {
        [] | [_] | [_, _] | [_, _, _] => Ok(None),
        [word, first, second, third, more @ ..] => {
            head_of_words(alloc, word, first, second, third, more)
        }
    }
}
