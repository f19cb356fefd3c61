//! A link that loses some of what another brings.

ghost use Rattle.std.specs.Prelude.{◌≡◌, ◌<◌, ◌||◌, List, ℕ, length, drop, is_err, IfOk};
ghost use Rattle.outside_api.specs.Count.{HasCause};
ghost use Rattle.outside_api.specs.Link.{IsEarlier, Answers, Fits};
ghost use Rattle.memory_world.specs.Failing.{one_more, fails_next};

use crate::link::MemoryLink;
use outside_api::{Failed, Fetched, Link};

/// What befalls one call of a link.
#[derive(Clone, Copy, PartialEq, Eq)]
pub enum Loss {
    /// It fails.
    Fail,
    /// It gives at most this many bytes, and at least 1.
    Short(u32),
    /// It answers as when the journal had this many committed bytes, in all its generations.
    Old(u64),
}

/// A link in memory whose calls meet one loss each, in order. When they are spent it loses nothing.
#[derive(Drop)]
pub struct LossyLink {
    inner: MemoryLink,
    losses: Vec<Loss>,
    next: usize,
}

impl LossyLink {
    ghost use Rattle.std.specs.Prelude.{slice_get};
    ghost use Rattle.memory_world.specs.Link.{link_journal, link_faults, link_calls};
    ghost use Rattle.memory_world.specs.Lossy.{lossy_journal, lossy_faults, lossy_calls, losses_left};

    /// A link over another. A call counts as one of the inner link too, and fails also where that
    /// one does.
    pub fn new(inner: MemoryLink, losses: Vec<Loss>) -> Self
        ensures journal { lossy_journal result ≡ link_journal inner }
        ensures losses { losses_left result ≡ losses.items }
        ensures faults { lossy_faults result ≡ link_faults inner }
        ensures calls { lossy_calls result ≡ link_calls inner }
    {
        LossyLink {
            inner,
            losses,
            next: 0,
        }
    }

    // The loss of the next call, which is spent.
    fn next_loss(&mut self) -> Option<Loss>
        ensures loss { result ≡ slice_get (losses_left self.old) 0 }
        ensures spent { losses_left self.new ≡ drop 1 (losses_left self.old) }
        ensures inner { self.new.inner ≡ self.old.inner }
    {
        let loss = self.losses.get(self.next).copied();
        if loss.is_some() {
            self.next += 1;
        }
        loss
    }
}

impl Link for LossyLink {
    ghost use Rattle.memory_world.specs.Lossy.{lossy_journal, lossy_faults, lossy_calls, losses_left, begins_with_fail, Passes};

    ghost says = { record { tells = λ link now. now ≡ lossy_journal link; faults = lossy_faults; keeps = λ old new. lossy_journal new ≡ lossy_journal old } };

    fn fetch(&mut self, generation: u32, at: u64, buffer: &mut [u8]) -> Result<Fetched, Failed>
        requires { 0 < length buffer.old }
        ensures answer { (now : List (List ℕ)) → now ≡ lossy_journal self.new →
            IfOk result (λ fetched. (earlier : List (List ℕ)) × IsEarlier earlier now ×
            Answers earlier generation at fetched buffer.new) }
        ensures fits { IfOk result (λ fetched. Fits fetched (length buffer.old)) }
        ensures grows { (before : List (List ℕ)) → before ≡ lossy_journal self.old →
            (now : List (List ℕ)) × (now ≡ lossy_journal self.new) × IsEarlier before now }
        ensures keeps { lossy_journal self.new ≡ lossy_journal self.old }
        ensures cause { HasCause (lossy_faults self.old) (lossy_faults self.new) result }
        ensures exactly { is_err result ≡ (fails_next (lossy_calls self.old) || begins_with_fail (losses_left self.old)) }
        ensures calls { lossy_calls self.new ≡ one_more (lossy_calls self.old) }
        ensures spent { losses_left self.new ≡ drop 1 (losses_left self.old) }
        ensures loss { IfOk result (λ fetched. Passes (losses_left self.old) (lossy_journal self.old) generation at fetched buffer.new) }
    {
        let loss = self.next_loss();
        if self.inner.calls.call_fails() {
            return Err(Failed);
        }
        let inner = &self.inner;
        match loss {
            None => Ok(inner.answer(inner.now(), generation, at, buffer)),
            Some(Loss::Fail) => {
                self.inner.calls.fault();
                Err(Failed)
            }
            Some(Loss::Short(most)) => {
                let most = (most as usize).max(1).min(buffer.len());
                Ok(inner.answer(inner.now(), generation, at, &mut buffer[..most]))
            }
            Some(Loss::Old(count)) => {
                Ok(inner.answer(inner.moment_of(count), generation, at, buffer))
            }
        }
    }
}
