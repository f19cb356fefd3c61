//! Which specifier of one pattern answers which of another.

ghost use Rattle.std.specs.Prelude.{◌≡◌, ◌∷◌, [], ◌+◌, ◌<◌, ◌^◌, length, IfOk, IfSome, IfNone};
ghost use Rattle.std.specs.List.{list_all};
ghost use Rattle.view_map.specs.Specifiers.{same_label, labels, labels_after, stars_past, dots_past, stands_once as once, same_specifiers as same_in, text_for as text_of, answering as answers};

use depot_path::{Pattern, Piece, Sequence, Text};
use std::alloc::{AllocError, Global};

/// A specifier of a pattern, by what answers it in another.
#[derive(Clone, Copy, PartialEq, Eq)]
pub enum Label {
    /// The `*` before which so many others stand.
    Star(usize),
    /// The `...` before which so many others stand.
    Dots(usize),
    /// The `%%k` with this k.
    Place(u8),
}

impl Label {
    fn is(self, other: Label) -> bool
        ensures { result ≡ same_label self other }
    {
        match (self, other) {
            (Label::Star(one), Label::Star(two)) => one == two,
            (Label::Dots(one), Label::Dots(two)) => one == two,
            (Label::Place(one), Label::Place(two)) => one == two,
            _ => false,
        }
    }

    /// How many `*` stand before the next specifier, where so many stand before this one.
    fn stars_past(self, stars: usize) -> usize
        requires { stars + 1 < 2 ^ 64 }
        ensures { result ≡ stars_past self stars }
    {
        match self {
            Label::Star(_) => stars + 1,
            _ => stars,
        }
    }

    /// How many `...` stand before the next specifier, where so many stand before this one.
    fn dots_past(self, dots: usize) -> usize
        requires { dots + 1 < 2 ^ 64 }
        ensures { result ≡ dots_past self dots }
    {
        match self {
            Label::Dots(_) => dots + 1,
            _ => dots,
        }
    }
}

/// The label of the first specifier of some pieces, and the pieces after it, where so many `*` and so many `...` stand
/// before them.
fn next_label(pieces: &[Piece], stars: usize, dots: usize) -> Option<(Label, &[Piece])>
    ensures none { IfNone result (labels_after stars dots pieces.now ≡ []) }
    ensures some { IfSome result (λ found. labels_after stars dots pieces.now ≡ found.0 ∷ labels_after (stars_past found.0 stars) (dots_past found.0 dots) found.1.now) }
    ensures shorter { IfSome result (λ found. length found.1.now < length pieces.now) }
{
    let mut rest = pieces;
    while let [piece, after @ ..] = rest {
        match *piece {
            Piece::Byte(_) => rest = after,
            Piece::Star => return Some((Label::Star(stars), after)),
            Piece::Dots => return Some((Label::Dots(dots), after)),
            Piece::Place(place) => return Some((Label::Place(place), after)),
        }
    }
    None
}

/// Whether one of the specifiers has the label, and no other has it too.
fn stands_once(pieces: &[Piece], label: Label) -> bool
    ensures { result ≡ once (labels pieces.now) label }
{
    let mut rest = pieces;
    let (mut stars, mut dots) = (0, 0);
    let mut count: usize = 0;
    while let Some((found, after)) = next_label(rest, stars, dots) {
        if label.is(found) {
            count += 1;
        }
        stars = found.stars_past(stars);
        dots = found.dots_past(dots);
        rest = after;
    }
    count == 1
}

/// Whether each specifier of one pattern is answered by just one of the other.
fn each_stands_once(one: &[Piece], other: &[Piece]) -> bool
    ensures { result ≡ list_all (once (labels other.now)) (labels one.now) }
{
    let mut rest = one;
    let (mut stars, mut dots) = (0, 0);
    while let Some((label, after)) = next_label(rest, stars, dots) {
        if !stands_once(other, label) {
            return false;
        }
        stars = label.stars_past(stars);
        dots = label.dots_past(dots);
        rest = after;
    }
    true
}

/// Whether both patterns have equally many `*`, equally many `...` and the same `%%k`, each once.
pub fn same_specifiers(one: &Pattern, other: &Pattern) -> bool
    ensures { result ≡ same_in one.now other.now }
{
    each_stands_once(one.pieces(), other.pieces()) && each_stands_once(other.pieces(), one.pieces())
}

/// The text of a label, where the texts are those of the pattern's specifiers.
fn text_for<'a>(pieces: &[Piece], texts: &'a [Text], label: Label) -> &'a [u8]
    ensures { result.now ≡ text_of (labels pieces.now) texts.now label }
{
    let mut rest = pieces;
    let mut texts = texts;
    let (mut stars, mut dots) = (0, 0);
    while let Some((found, after)) = next_label(rest, stars, dots) {
        let [text, others @ ..] = texts else {
            return &[];
        };
        if found.is(label) {
            return text.as_bytes();
        }
        stars = found.stars_past(stars);
        dots = found.dots_past(dots);
        rest = after;
        texts = others;
    }
    &[]
}

fn answering_texts(
    alloc: Global,
    from: &[Piece],
    to: &[Piece],
    texts: &[Text],
) -> Result<Sequence<Text>, AllocError>
    ensures { IfOk result (λ answer. answer ≡ answers from.now to.now texts.now) }
{
    let mut answer = Sequence::new(alloc);
    let mut rest = to;
    let (mut stars, mut dots) = (0, 0);
    while let Some((label, after)) = next_label(rest, stars, dots) {
        answer.push(Text::from_bytes(alloc, text_for(from, texts, label))?)?;
        stars = label.stars_past(stars);
        dots = label.dots_past(dots);
        rest = after;
    }
    Ok(answer)
}

/// The texts of the specifiers of one pattern, in the order of the specifiers of another that has the same ones: the
/// n-th `*` answers the n-th `*`, the n-th `...` the n-th `...`, and `%%k` answers `%%k`.
pub fn answering(
    alloc: Global,
    from: &Pattern,
    to: &Pattern,
    texts: &[Text],
) -> Result<Sequence<Text>, AllocError>
    ensures { IfOk result (λ answer. answer ≡ answers from.now to.now texts.now) }
{
    answering_texts(alloc, from.pieces(), to.pieces(), texts)
}
