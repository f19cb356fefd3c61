//! The revisions that a file specification asks for.

ghost use Rattle.std.specs.Prelude.{◌≡◌, ◌==◌, ◌<◌, true, length, position, if◌then◌else◌, IfSome};
ghost use Rattle.depot_path.specs.Answers.{Answers};
ghost use Rattle.depot_path.specs.Date.{is_date, moment_of};
ghost use Rattle.depot_path.specs.Bytes.{is_among};
ghost use Rattle.depot_path.specs.Revision.{small_number as number_in, numbered as numbered_as, hash_end, at_end, end_of, is_counted as counted_test, is_change as change_test, is_dated as dated_test, may_be_range as range_test, has_no_form as formless, is_memory as memory_test, same_mark as mark_test, second_hash as hash_of_second, second_word as word_of_second, is_plain_name as plain_name_test, one_of, range_of, ends_of, wanted_of};

use crate::date::{has_date_shape, read_moment};
use crate::digits::{is_digits, number_up_to};
use crate::fault::PathFault;
use crate::name::{Name, is_name};
use std::alloc::Global;

/// One revision of a file.
#[derive(Clone, Drop, PartialEq, Eq)]
pub enum RevSpec {
    /// `#n`: the n-th revision, from 1.
    Number(u32),
    /// `#head`: the newest.
    Newest,
    /// `#have`: the one that the client has.
    Have,
    /// `#none` and `#0`: none.
    Zero,
    /// `@n`: the newest as of a change.
    Change(u32),
    /// `@=n`: the one that the change made.
    Only(u32),
    /// `@yyyy/mm/dd` with or without a time: the newest as of a moment, in seconds since 1970.
    Moment(i64),
    /// `@label` or `@client`: that of the label, or else of the client.
    Named(Name),
}

/// The revisions that a file specification asks for.
#[derive(Clone, Drop, PartialEq, Eq)]
pub enum Wanted {
    /// None is given.
    Head,
    /// One revision.
    One(RevSpec),
    /// From one end to the other, both included.
    Range(RevSpec, RevSpec),
}

/// The greatest number of a revision or a change.
const GREATEST: u32 = 2_147_483_647;

/// The number that a word of digits spells, up to the greatest.
fn small_number(word: &[u8]) -> Option<u32>
    ensures { result ≡ number_in word.now }
{
    match number_up_to(u64::from(GREATEST), word) {
        Some(number) => Some(number as u32),
        None => None,
    }
}

fn numbered(number: u32) -> RevSpec
    ensures { result ≡ numbered_as number }
{
    if number == 0 {
        RevSpec::Zero
    } else {
        RevSpec::Number(number)
    }
}

/// What a word after `#` means.
fn read_hash_end(word: &[u8]) -> Result<RevSpec, PathFault>
    ensures { result ≡ hash_end word.now }
{
    if word == b"head".as_slice() {
        Ok(RevSpec::Newest)
    } else if word == b"have".as_slice() {
        Ok(RevSpec::Have)
    } else if word == b"none".as_slice() {
        Ok(RevSpec::Zero)
    } else {
        match small_number(word) {
            Some(number) => Ok(numbered(number)),
            None => Err(PathFault::BadRevision),
        }
    }
}

fn has_comma(word: &[u8]) -> bool
    ensures { result ≡ is_among word.now 0x2C }
{
    word.iter().any(|byte| *byte == b',')
}

/// A name that may stand after `@`.
fn is_plain_name(word: &[u8]) -> bool
    ensures { result ≡ plain_name_test word.now }
{
    is_name(word) && !has_comma(word)
}

#[tactic(auto, using(crate::proofs::Ends::plain_is_name))]
fn read_name_end(alloc: Global, word: &[u8]) -> Result<RevSpec, PathFault>
    requires { plain_name_test word.now ≡ true }
    ensures { Answers PathFault.Memory result (Ok (RevSpec.Named word.now)) }
{
    match Name::read(alloc, word) {
        Ok(name) => Ok(RevSpec::Named(name)),
        Err(_) => Err(PathFault::Memory),
    }
}

fn read_date_end(word: &[u8]) -> Result<RevSpec, PathFault>
    ensures { result ≡ (if is_date word.now then Ok (RevSpec.Moment (moment_of word.now)) else Err PathFault.BadDate) }
{
    match read_moment(word) {
        Some(moment) => Ok(RevSpec::Moment(moment)),
        None => Err(PathFault::BadDate),
    }
}

/// What a word after `@` means.
fn read_at_end(alloc: Global, word: &[u8]) -> Result<RevSpec, PathFault>
    ensures { Answers PathFault.Memory result (at_end word.now) }
{
    if word.starts_with(b"=") {
        return match small_number(word.get(1..).unwrap_or(&[])) {
            Some(number) => Ok(RevSpec::Only(number)),
            None => Err(PathFault::BadRevision),
        };
    }
    if is_digits(word) {
        return match small_number(word) {
            Some(number) => Ok(RevSpec::Change(number)),
            None => Err(PathFault::BadRevision),
        };
    }
    if has_date_shape(word) {
        return read_date_end(word);
    }
    if is_plain_name(word) {
        read_name_end(alloc, word)
    } else {
        Err(PathFault::BadRevision)
    }
}

/// What a word means after `#`, or else after `@`.
fn read_end(alloc: Global, hash: bool, word: &[u8]) -> Result<RevSpec, PathFault>
    ensures { Answers PathFault.Memory result (end_of hash word.now) }
{
    if hash {
        read_hash_end(word)
    } else {
        read_at_end(alloc, word)
    }
}

fn is_counted(end: &Result<RevSpec, PathFault>) -> bool
    ensures { result ≡ counted_test end.now }
{
    matches!(end, Ok(RevSpec::Number(_) | RevSpec::Newest))
}

fn is_change(end: &Result<RevSpec, PathFault>) -> bool
    ensures { result ≡ change_test end.now }
{
    matches!(end, Ok(RevSpec::Change(_)))
}

fn is_dated(end: &Result<RevSpec, PathFault>) -> bool
    ensures { result ≡ dated_test end.now }
{
    matches!(end, Ok(RevSpec::Moment(_)) | Err(PathFault::BadDate))
}

fn has_no_form(end: &Result<RevSpec, PathFault>) -> bool
    ensures { result ≡ formless end.now }
{
    matches!(end, Err(PathFault::BadRevision))
}

fn may_be_range(first: &Result<RevSpec, PathFault>, second: &Result<RevSpec, PathFault>) -> bool
    ensures { result ≡ range_test first.now second.now }
{
    is_counted(first) && is_counted(second)
        || is_change(first) && is_change(second)
        || is_dated(first) && is_dated(second)
}

fn join_ends(
    same_mark: bool,
    first: Result<RevSpec, PathFault>,
    second: Result<RevSpec, PathFault>,
) -> Result<Wanted, PathFault>
    ensures { result ≡ range_of same_mark first second }
{
    if has_no_form(&first) || has_no_form(&second) {
        Err(PathFault::BadRevision)
    } else if !same_mark || !may_be_range(&first, &second) {
        Err(PathFault::BadRange)
    } else {
        Ok(Wanted::Range(first?, second?))
    }
}

fn is_memory(end: &Result<RevSpec, PathFault>) -> bool
    ensures { result ≡ memory_test end.now }
{
    matches!(end, Err(PathFault::Memory))
}

fn same_mark(first: bool, second: bool) -> bool
    ensures { result ≡ mark_test first second }
{
    if first { second } else { !second }
}

/// Reads two ends, each after its mark.
fn read_two(
    alloc: Global,
    first_hash: bool,
    first: &[u8],
    second_hash: bool,
    second: &[u8],
) -> Result<Wanted, PathFault>
    ensures { Answers PathFault.Memory result (range_of (mark_test first_hash second_hash) (end_of first_hash first.now) (end_of second_hash second.now)) }
{
    let first = read_end(alloc, first_hash, first);
    let second = read_end(alloc, second_hash, second);
    if is_memory(&first) || is_memory(&second) {
        return Err(PathFault::Memory);
    }
    join_ends(same_mark(first_hash, second_hash), first, second)
}

/// Whether the mark of a second end is `#`: its own, or else that of the first.
fn second_hash(hash: bool, second: &[u8]) -> bool
    ensures { result ≡ hash_of_second hash second.now }
{
    if second.starts_with(b"#") {
        true
    } else if second.starts_with(b"@") {
        false
    } else {
        hash
    }
}

/// The word of a second end, after its mark if it has one.
fn second_word(second: &[u8]) -> &[u8]
    ensures { result.now ≡ word_of_second second.now }
{
    if second.starts_with(b"#") || second.starts_with(b"@") {
        second.get(1..).unwrap_or(&[])
    } else {
        second
    }
}

fn read_ends(alloc: Global, hash: bool, first: &[u8], second: &[u8]) -> Result<Wanted, PathFault>
    ensures { Answers PathFault.Memory result (ends_of hash first.now second.now) }
{
    read_two(
        alloc,
        hash,
        first,
        second_hash(hash, second),
        second_word(second),
    )
}

#[tactic(auto, using(crate::proofs::Answers::right, crate::proofs::Answers::wanting, crate::proofs::Answers::after, crate::proofs::Answers::fails))]
fn read_one(alloc: Global, hash: bool, word: &[u8]) -> Result<Wanted, PathFault>
    ensures { Answers PathFault.Memory result (one_of (end_of hash word.now)) }
{
    Ok(Wanted::One(read_end(alloc, hash, word)?))
}

fn comma_in(text: &[u8]) -> Option<usize>
    ensures value { result ≡ position (λ b. b == 0x2C) text.now }
    ensures within { IfSome result (λ comma. comma < length text.now) }
{
    text.iter().position(|byte| *byte == b',')
}

/// Reads what stands after the mark `#`, or else `@`.
pub(crate) fn read_wanted(alloc: Global, hash: bool, text: &[u8]) -> Result<Wanted, PathFault>
    ensures { Answers PathFault.Memory result (wanted_of hash text.now) }
{
    match comma_in(text) {
        Some(comma) => read_ends(alloc, hash, &text[..comma], &text[comma + 1..]),
        None => read_one(alloc, hash, text),
    }
}
