//! The texts with which the files begin that an argument may name.

ghost use Rattle.std.specs.Prelude.{◌≡◌, ◌∷◌, [], ℕ, List, true, IfOk};
ghost use Rattle.named_files.specs.Asked.{is_begun, is_placed};
ghost use Rattle.named_files.specs.Beginnings.{AreApart, begins_with_one, has_one};

use crate::asker::Asker;
use depot_rows::paths::{Pattern, Sequence, Text};
use row_reads::in_client_syntax;
use std::alloc::{AllocError, Global};

/// One text. The one error, here and below, is want of memory.
fn one_text(alloc: Global, text: Text) -> Result<Sequence<Text>, AllocError>
    ensures { IfOk result (λ texts. texts ≡ text ∷ []) }
{
    let mut texts = Sequence::new(alloc);
    texts.push(text)?;
    Ok(texts)
}

/// The texts in order, without those that begin with one before. It takes no memory.
fn set_apart(texts: Sequence<Text>) -> Sequence<Text>
    ensures apart { AreApart result }
    ensures covers { (text : List ℕ) → begins_with_one texts text ≡ true → begins_with_one result text ≡ true }
{
    let mut texts = texts.into_vec();
    texts.sort_unstable();
    texts.dedup_by(|text, before| text.as_bytes().starts_with(before.as_bytes()));
    Sequence::from_vec(texts)
}

/// Texts with one of which every file begins, as it is printed, that begins itself with the literal text of a pattern,
/// or in client syntax whose place does: there those with which the lines of the view put files there, without those
/// that begin with another one.
pub(crate) fn begun_of(
    alloc: Global,
    asker: &Asker,
    pattern: &Pattern,
) -> Result<Sequence<Text>, AllocError>
    ensures apart { IfOk result (λ beginnings. AreApart beginnings) }
    ensures every { IfOk result (λ beginnings. (path : List ℕ) → is_begun asker.now pattern.now path ≡ true →
        has_one beginnings path ≡ true) }
{
    let start = pattern.beginning(alloc)?;
    if !in_client_syntax(&asker.client, pattern) {
        let beginnings = one_text(alloc, start)?;
        return Ok(beginnings);
    }
    let texts = asker.view.beginnings(alloc, start.as_bytes())?;
    let beginnings = set_apart(texts);
    Ok(beginnings)
}

/// Texts with one of which every file begins, as it is printed, at whose place a pattern fits.
pub(crate) fn beginnings_of(
    alloc: Global,
    asker: &Asker,
    pattern: &Pattern,
) -> Result<Sequence<Text>, AllocError>
    ensures apart { IfOk result (λ beginnings. AreApart beginnings) }
    ensures every { IfOk result (λ beginnings. (path : List ℕ) → is_placed asker.now pattern.now path ≡ true →
        has_one beginnings path ≡ true) }
{
    let beginnings = begun_of(alloc, asker, pattern)?;
    Ok(beginnings)
}
