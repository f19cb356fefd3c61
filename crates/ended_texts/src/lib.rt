//! What the program tells on standard error of an end that isn't done: a line each, which names what has failed and
//! says why.
//!
//! Each function answers a line without its end. The one error is want of memory.
#![tactic(auto)]

ghost use Rattle.std.specs.Prelude.{◌≡◌, ℕ, IfOk, Some, None, string_bytes};
ghost use Rattle.ended_texts.specs.Texts.{apart, bad_at_byte, bad_line, bad_place, damaged, failed, wrong};

use std::alloc::{AllocError, Global};
use wire_text::ScriptFaultKind;

/// The line that tells that there is no depot to run over.
pub const UNMADE: &str = "laitsjop: no depot is here; `laitsjop init` makes one in this folder";

/// The line that tells that there is no node to run over.
pub const NODE_UNMADE: &str =
    "laitsjop: no node is here; `laitsjop follow` makes one in this folder";

/// The line that tells why none is made.
pub const MADE: &str = "laitsjop: a depot is here already; nothing was changed";

/// Why a folder can't be used.
pub const HELD: &str = "another program holds this folder; nothing was changed";

/// The line that tells the words by which a node is used.
pub const CHAIN_USAGE: &str =
    "follow: the node follows the depot; node WORDS: runs these words over the node";

/// The line that tells that a node has all changes of the depot's journals, and yet not the depot's rows.
pub const INCOMPLETE: &str =
    "laitsjop: the node has all changes of depot.journal, and other rows than the depot: an old journal is gone or damaged, or the depot was made from rows; begin the node as a copy of the depot's folders";

/// The line that tells that there was no memory.
pub const MEMORY: &str = "laitsjop: out of memory";

/// The line that tells why something has failed.
pub fn failed_line(alloc: Global, what: &str, why: &str) -> Result<String, AllocError>
    ensures { IfOk result (λ text. string_bytes text ≡ failed what.now why.now) }
{
    format!(in alloc; "laitsjop: {what}: {why}")
}

/// The line that tells where a file of a folder is damaged.
pub fn damaged_line(
    alloc: Global,
    folder: &str,
    file: u32,
    place: u64,
) -> Result<String, AllocError>
    ensures { IfOk result (λ text. string_bytes text ≡ damaged folder.now file place) }
{
    format!(in alloc; "laitsjop: {folder}/{file} at byte {place}: damaged; nothing was changed")
}

/// The line that tells where a node's journal departs from the depot's: in which generation, and at which byte of its
/// text, counted from 0.
pub fn apart_line(alloc: Global, generation: u32, place: u64) -> Result<String, AllocError>
    ensures { IfOk result (λ text. string_bytes text ≡ apart generation place) }
{
    format!(in alloc;
        "laitsjop: node.journal departs from depot.journal in generation {generation} at byte {place}; nothing was changed"
    )
}

/// The line that tells at which byte, counted from 0, the depot's journal or archive can't be followed.
pub fn bad_place_line(alloc: Global, place: u64) -> Result<String, AllocError>
    ensures { IfOk result (λ text. string_bytes text ≡ bad_place place) }
{
    format!(in alloc;
        "laitsjop: depot.journal or depot.archive at byte {place}: bad; the node has what stands before it"
    )
}

/// What is wrong with a script.
fn wrong_with(what: ScriptFaultKind) -> &'static str
    ensures { result.now ≡ wrong what }
{
    match what {
        ScriptFaultKind::BadHead => {
            "this is no first line of a script, as `session USER CLIENT HOST` is"
        }
        ScriptFaultKind::LongLine => "the line is longer than 8192 bytes",
        ScriptFaultKind::BadData => {
            "the line is not of its form, or no line feed follows its block"
        }
        ScriptFaultKind::Cut => {
            "the script ends inside a line or a block, or before the command of an input"
        }
        ScriptFaultKind::LongData => {
            "the block is longer than 8388608 bytes, or the script than 67108864"
        }
    }
}

/// The line that tells what is wrong with the script of a name: in which line, counted from 1, or, where that isn't
/// known, at which byte, counted from 0.
pub fn script_line(
    alloc: Global,
    name: &str,
    line: Option<u64>,
    what: ScriptFaultKind,
    place: u64,
) -> Result<String, AllocError>
    ensures line { (number : ℕ) → line ≡ Some number →
        IfOk result (λ text. string_bytes text ≡ bad_line name.now number (wrong what)) }
    ensures byte { line ≡ None → IfOk result (λ text. string_bytes text ≡ bad_at_byte name.now place (wrong what)) }
{
    let why = wrong_with(what);
    match line {
        Some(number) => format!(in alloc; "laitsjop: {name} line {number}: {why}"),
        None => format!(in alloc; "laitsjop: {name} at byte {place}: {why}"),
    }
}
