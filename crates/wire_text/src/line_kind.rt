//! What a line of a script is for.

ghost use Rattle.std.specs.Prelude.{◌≡◌, IfOk};
ghost use Rattle.wire_text.specs.LineKind as spec;
ghost use Rattle.wire_text.specs.LineKind.{length_of, path_in as path_of_client};
ghost use Rattle.wire_text.specs.Parts.{last_cut};

use crate::parts::{cut_at, cut_at_last};
use depot_model::paths::{ClientPath, DepotPath, Name, PathFault, is_digits, value_up_to};
use std::alloc::{AllocError, Global};

/// The most bytes of a block.
pub const MAX_BLOCK: u32 = 8_388_608;

/// What a line of a script is for.
#[derive(Drop)]
pub(crate) enum LineKind {
    /// For nothing.
    Skipped,
    /// It begins the block of a file of the client workspace, with the block's length in bytes.
    Block(ClientPath, u32),
    /// It takes the content of such a file away.
    Clear(ClientPath),
    /// It begins the block of an input, with the block's length in bytes.
    Input(u32),
    /// It is a command.
    CommandLine,
    /// It isn't of its form.
    Bad,
    /// It begins a block of too many bytes.
    LongBlock,
}

/// Why a word is no length of a block.
#[derive(Clone, Copy, PartialEq, Eq)]
enum LengthFault {
    /// It isn't digits.
    NoLength,
    /// It is too great.
    TooLong,
}

/// What a line is for whose word this is.
fn kind_of_fault(fault: LengthFault) -> LineKind
    ensures { result ≡ spec.kind_of_fault fault }
{
    match fault {
        LengthFault::NoLength => LineKind::Bad,
        LengthFault::TooLong => LineKind::LongBlock,
    }
}

/// Whether a line says nothing.
fn is_skipped(line: &[u8]) -> bool
    ensures { result ≡ spec.is_skipped line.now }
{
    match line {
        [] => true,
        [first, ..] => *first == b'#',
    }
}

/// The length of a block that a word spells.
fn block_length(word: &[u8]) -> Result<u32, LengthFault>
    ensures { result ≡ spec.length_of word.now }
{
    if !is_digits(word) {
        return Err(LengthFault::NoLength);
    }
    match value_up_to(u64::from(MAX_BLOCK), word) {
        Some(length) => Ok(length as u32),
        None => Err(LengthFault::TooLong),
    }
}

/// Whether the first component of a path is the client.
fn is_within(client: &[u8], path: &[u8]) -> bool
    ensures { result ≡ spec.is_within client.now path.now }
{
    match cut_at(b'/', path.get(2..).unwrap_or(&[])) {
        Some((first, _)) => first == client,
        None => false,
    }
}

/// The path that a text spells, if it is one within the client.
fn path_in(alloc: Global, client: &Name, text: &[u8]) -> Result<Option<ClientPath>, AllocError>
    ensures { IfOk result (λ path. path ≡ path_of_client client.now text.now) }
{
    match DepotPath::read(alloc, text) {
        Ok(path) => {
            if is_within(client.as_bytes(), path.as_bytes()) {
                Ok(Some(path))
            } else {
                Ok(None)
            }
        }
        Err(PathFault::Memory) => Err(AllocError),
        Err(_) => Ok(None),
    }
}

/// `file PATH LENGTH`, of which this follows the first space.
fn file_kind(alloc: Global, client: &Name, text: &[u8]) -> Result<LineKind, AllocError>
    ensures { IfOk result (λ kind. kind ≡ spec.file_kind client.now (last_cut 0x20 text.now)) }
{
    match cut_at_last(b' ', text) {
        None => Ok(LineKind::Bad),
        Some((path, length)) => match path_in(alloc, client, path)? {
            None => Ok(LineKind::Bad),
            Some(path) => match block_length(length) {
                Ok(length) => Ok(LineKind::Block(path, length)),
                Err(fault) => Ok(kind_of_fault(fault)),
            },
        },
    }
}

/// `clear PATH`, of which this follows the first space.
fn clear_kind(alloc: Global, client: &Name, text: &[u8]) -> Result<LineKind, AllocError>
    ensures { IfOk result (λ kind. kind ≡ spec.clear_kind (path_of_client client.now text.now)) }
{
    match path_in(alloc, client, text)? {
        Some(path) => Ok(LineKind::Clear(path)),
        None => Ok(LineKind::Bad),
    }
}

/// `input LENGTH`, of which this follows the first space.
fn input_kind(waits: bool, text: &[u8]) -> LineKind
    ensures { result ≡ spec.input_kind waits (length_of text.now) }
{
    if waits {
        return LineKind::Bad;
    }
    match block_length(text) {
        Ok(length) => LineKind::Input(length),
        Err(fault) => kind_of_fault(fault),
    }
}

/// What a line is for whose first word and rest these are.
fn kind_by_word(
    alloc: Global,
    client: &Name,
    waits: bool,
    word: &[u8],
    rest: &[u8],
) -> Result<LineKind, AllocError>
    ensures { IfOk result (λ kind. kind ≡ spec.kind_by_word client.now waits word.now rest.now) }
{
    if word == b"file".as_slice() {
        file_kind(alloc, client, rest)
    } else if word == b"clear".as_slice() {
        clear_kind(alloc, client, rest)
    } else if word == b"input".as_slice() {
        Ok(input_kind(waits, rest))
    } else {
        Ok(LineKind::CommandLine)
    }
}

/// What a line of a script of this client is for. An input may wait for its command.
pub(crate) fn line_kind(
    alloc: Global,
    client: &Name,
    waits: bool,
    line: &[u8],
) -> Result<LineKind, AllocError>
    ensures { IfOk result (λ kind. kind ≡ spec.kind_of client.now waits line.now) }
{
    if is_skipped(line) {
        return Ok(LineKind::Skipped);
    }
    match cut_at(b' ', line) {
        Some((word, rest)) => kind_by_word(alloc, client, waits, word, rest),
        None => kind_by_word(alloc, client, waits, line, &[]),
    }
}
