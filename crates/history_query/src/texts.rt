//! Sets of texts.

ghost use Rattle.std.specs.Prelude.{◌≡◌, [], IfOk, OnOk};
ghost use Rattle.std.specs.List.{list_any};
ghost use Rattle.depot_rows.specs.depot_path.Bytes.{same};
ghost use Rattle.history_query.specs.Directories.{text_inserted};

use depot_rows::paths::{Sequence, Text};
use std::alloc::{AllocError, Global};
use std::collections::BTreeSet;
use std::marker::Model;

/// Texts, each once, in the order of their bytes.
#[derive(Drop)]
pub(crate) struct TextSet {
    texts: BTreeSet<Text>,
}

impl Model for TextSet {
    ghost use Rattle.std.specs.Prelude.{List, ℕ};

    ghost Value = { List (List ℕ) };

    ghost view = { λ set. set.texts.keys };
}

impl TextSet {
    /// No texts, which takes no memory.
    pub fn new(alloc: Global) -> TextSet
        ensures { result ≡ [] }
    {
        TextSet {
            texts: BTreeSet::new(alloc),
        }
    }

    /// Adds a text, unless it is there.
    pub fn insert(&mut self, text: Text) -> Result<(), AllocError>
        ensures { OnOk result (self.new ≡ text_inserted text self.old) }
    {
        self.texts.insert(text)?;
        Ok(())
    }

    /// Whether a text is there.
    pub fn contains(&self, text: &Text) -> bool
        ensures { result ≡ list_any (same text.now) self.now }
    {
        self.texts.contains(text)
    }

    /// The texts, in their order.
    pub fn into_sequence(self, alloc: Global) -> Result<Sequence<Text>, AllocError>
        ensures { IfOk result (λ texts. texts ≡ self) }
    {
        let mut texts = Sequence::new(alloc);
        for text in self.texts {
            texts.push(text)?;
        }
        Ok(texts)
    }
}
