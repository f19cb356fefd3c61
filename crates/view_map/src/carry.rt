//! Where one line of a view takes a file.

ghost use Rattle.std.specs.Prelude.{◌≡◌, true, IfOk, OnErr};
ghost use Rattle.depot_path.specs.Fit.{fits, texts as texts_in};
ghost use Rattle.view_map.specs.Carry.{same_texts, confirmed as confirmed_by, made_of as made_from, carried, client_path as path_by, depot_file as file_of};

use crate::line::ViewLine;
use crate::specifiers::answering;
use depot_path::{ClientPath, DepotPath, Pattern, Sequence, Text};
use std::alloc::{AllocError, Global};

/// Whether the pattern's specifiers stand for these texts in the path.
fn has_texts(
    alloc: Global,
    pattern: &Pattern,
    path: &DepotPath,
    texts: &[Text],
) -> Result<bool, AllocError>
    ensures { IfOk result (λ has. has ≡ same_texts (texts_in pattern.now path.now) texts.now) }
{
    match pattern.texts(alloc, path.as_bytes())? {
        Some(own) => Ok(own.as_slice() == texts),
        None => Ok(false),
    }
}

/// The path, if the pattern's specifiers stand for these texts in it.
fn confirmed(
    alloc: Global,
    pattern: &Pattern,
    path: DepotPath,
    texts: &[Text],
) -> Result<Option<DepotPath>, AllocError>
    ensures { IfOk result (λ found. found ≡ confirmed_by pattern.now path texts.now) }
{
    if has_texts(alloc, pattern, &path, texts)? {
        Ok(Some(path))
    } else {
        Ok(None)
    }
}

/// The path that the pattern makes of texts, if it is one and the pattern's own cut of it gives these texts.
fn made_of(alloc: Global, to: &Pattern, texts: &[Text]) -> Result<Option<DepotPath>, AllocError>
    ensures { IfOk result (λ made. made ≡ made_from to.now texts.now) }
{
    match DepotPath::from_text(to.filled(alloc, texts)?) {
        Some(path) => confirmed(alloc, to, path, texts),
        None => Ok(None),
    }
}

/// The path that one pattern makes of the texts for which the other's specifiers stand in a path. What doesn't fit
/// takes no memory.
fn carry(
    alloc: Global,
    from: &Pattern,
    to: &Pattern,
    path: &DepotPath,
) -> Result<Option<DepotPath>, AllocError>
    ensures value { IfOk result (λ made. made ≡ carried from.now to.now path.now) }
    ensures memory { OnErr result (fits from.now path.now ≡ true) }
{
    match from.texts(alloc, path.as_bytes())? {
        Some(texts) => {
            let answer = answering(alloc, from, to, texts.as_slice())?;
            made_of(alloc, to, answer.as_slice())
        }
        None => Ok(None),
    }
}

impl ViewLine {
    /// The client path to which the sides of the line take a file.
    pub(crate) fn client_path(
        &self,
        alloc: Global,
        file: &DepotPath,
    ) -> Result<Option<ClientPath>, AllocError>
        ensures value { IfOk result (λ path. path ≡ path_by self.now file.now) }
        ensures memory { OnErr result (fits self.now.depot file.now ≡ true) }
    {
        carry(alloc, &self.depot, &self.client, file)
    }

    /// The file that the sides of the line take to a client path.
    pub(crate) fn depot_file(
        &self,
        alloc: Global,
        path: &ClientPath,
    ) -> Result<Option<DepotPath>, AllocError>
        ensures value { IfOk result (λ file. file ≡ file_of self.now path.now) }
        ensures memory { OnErr result (fits self.now.client path.now ≡ true) }
    {
        carry(alloc, &self.client, &self.depot, path)
    }
}
