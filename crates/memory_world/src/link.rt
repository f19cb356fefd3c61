//! A link to a journal in memory.

ghost use Rattle.std.specs.Prelude.{◌≡◌, ◌≤◌, ◌<◌, ◌-◌, ℕ, List, length, min, is_err, IfOk};
ghost use Rattle.outside_api.specs.Count.{HasCause};
ghost use Rattle.std.specs.List.{concat};
ghost use Rattle.outside_api.specs.Link.{text_of, IsEarlier, Answers, Fits};
ghost use Rattle.memory_world.specs.Failing.{no_call, one_more, fails_next};
ghost use Rattle.memory_world.specs.Link.{journal_of, journal_then, IsJournalAt};

use crate::disk::copy_from;
use crate::failing::Failing;
use depot_path::Text;
use outside_api::{Failed, Fetched, Link};

/// When so many bytes of the newest generation were committed, and none of a later one.
#[derive(Clone, Copy)]
pub(crate) struct Moment {
    newest: usize,
    bytes: usize,
}

/// A link to a journal in memory, whose committed texts stay as they are.
#[derive(Drop)]
pub struct MemoryLink {
    texts: Vec<Text>,
    pub(crate) calls: Failing,
}

// The moment of all the texts.
fn now(texts: &[Text]) -> Moment
    ensures newest { result.newest ≡ length texts.now - 1 }
    ensures bytes { result.bytes ≡ length (text_of texts.now result.newest) }
{
    match texts.last() {
        Some(text) => Moment {
            newest: texts.len() - 1,
            bytes: text.len(),
        },
        None => Moment {
            newest: 0,
            bytes: 0,
        },
    }
}

// The first moment when so many bytes were committed in all, or now where they never were as many.
fn moment_of(texts: &[Text], count: u64) -> Moment
    ensures newest { result.newest ≤ length texts.now - 1 }
    ensures bytes { length (concat (journal_then texts.now result.newest result.bytes)) ≡ min count (length (concat texts.now)) }
{
    let mut left = count as usize;
    for newest in 0..texts.len().saturating_sub(1) {
        let bytes = texts[newest].len();
        if left <= bytes {
            return Moment {
                newest,
                bytes: left,
            };
        }
        left -= bytes;
    }
    let Moment { newest, bytes } = now(texts);
    Moment {
        newest,
        bytes: left.min(bytes),
    }
}

// The text of a generation, empty where it isn't there yet.
fn text_at(texts: &[Text], generation: usize) -> &[u8]
    ensures { result.now ≡ text_of texts.now generation }
{
    match texts.get(generation) {
        Some(text) => text.as_bytes(),
        None => &[],
    }
}

// The text of a generation at a moment.
fn text_then(texts: &[Text], moment: Moment, generation: usize) -> &[u8]
    requires { moment.newest ≤ length texts.now - 1 }
    ensures { result.now ≡ text_of (journal_then texts.now moment.newest moment.bytes) generation }
{
    let text = text_at(texts, generation);
    if generation < moment.newest {
        return text;
    }
    if generation > moment.newest {
        return &[];
    }
    &text[..moment.bytes.min(text.len())]
}

impl MemoryLink {
    ghost use Rattle.memory_world.specs.Link.{link_journal, link_faults, link_calls};

    /// A link to the journal of these texts, one for each generation from 0 on. The calls of these
    /// numbers, from 1, fail.
    pub fn new(texts: Vec<Text>, fails: Vec<u64>) -> Self
        ensures journal { link_journal result ≡ journal_of texts.items }
        ensures faults { link_faults result ≡ 0 }
        ensures calls { link_calls result ≡ no_call fails.items }
    {
        MemoryLink {
            texts,
            calls: Failing::new(fails),
        }
    }

    /// The moment of the whole journal.
    pub(crate) fn now(&self) -> Moment
        ensures newest { result.newest ≤ length self.now.texts.items - 1 }
        ensures whole { journal_then self.now.texts.items result.newest result.bytes ≡ link_journal self.now }
    {
        now(&self.texts)
    }

    /// The first moment when so many bytes were committed in all, or that of the whole journal where
    /// they never were as many.
    pub(crate) fn moment_of(&self, count: u64) -> Moment
        ensures newest { result.newest ≤ length self.now.texts.items - 1 }
        ensures journal { IsJournalAt count (journal_then self.now.texts.items result.newest result.bytes) (link_journal self.now) }
    {
        moment_of(&self.texts, count)
    }

    /// What the journal of a moment answers.
    pub(crate) fn answer(
        &self,
        moment: Moment,
        generation: u32,
        at: u64,
        buffer: &mut [u8],
    ) -> Fetched
        requires newest { moment.newest ≤ length self.now.texts.items - 1 }
        requires room { 0 < length buffer.old }
        ensures answer { Answers (journal_then self.now.texts.items moment.newest moment.bytes) generation at result buffer.new }
        ensures fits { Fits result (length buffer.old) }
    {
        let text = text_then(&self.texts, moment, generation as usize);
        let count = copy_from(text, at, buffer);
        if count > 0 {
            return Fetched::Bytes(count);
        }
        if (generation as usize) < moment.newest {
            return Fetched::Next;
        }
        Fetched::End
    }
}

impl Link for MemoryLink {
    ghost use Rattle.memory_world.specs.Link.{link_journal, link_faults, link_calls};

    ghost says = { record { tells = λ link now. now ≡ link_journal link; faults = link_faults; keeps = λ old new. link_journal new ≡ link_journal old } };

    fn fetch(&mut self, generation: u32, at: u64, buffer: &mut [u8]) -> Result<Fetched, Failed>
        requires { 0 < length buffer.old }
        ensures answer { (now : List (List ℕ)) → now ≡ link_journal self.new →
            IfOk result (λ fetched. (earlier : List (List ℕ)) × IsEarlier earlier now ×
            Answers earlier generation at fetched buffer.new) }
        ensures fits { IfOk result (λ fetched. Fits fetched (length buffer.old)) }
        ensures grows { (before : List (List ℕ)) → before ≡ link_journal self.old →
            (now : List (List ℕ)) × (now ≡ link_journal self.new) × IsEarlier before now }
        ensures keeps { link_journal self.new ≡ link_journal self.old }
        ensures cause { HasCause (link_faults self.old) (link_faults self.new) result }
        ensures newest { IfOk result (λ fetched. Answers (link_journal self.old) generation at fetched buffer.new) }
        ensures exactly { is_err result ≡ fails_next (link_calls self.old) }
        ensures calls { link_calls self.new ≡ one_more (link_calls self.old) }
    {
        if self.calls.call_fails() {
            return Err(Failed);
        }
        Ok(self.answer(self.now(), generation, at, buffer))
    }
}
