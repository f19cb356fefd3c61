//! Who takes commands.

ghost use Rattle.std.specs.Prelude.{◌≡◌, ◌⊎◌, ◌≤◌, ℕ, List, true, false, IfOk, OnErr};
ghost use Rattle.outside_api.specs.Count.{HasRisen};
ghost use Rattle.depot_model.specs.Deeds.{Deed};
ghost use Rattle.depot_model.specs.Places.{Placed, taken};
ghost use Rattle.depot_model.specs.Commands.{step};
ghost use Rattle.session_loop.specs.Taking.{Answers, ChangesNoRow, IsProper, PrintsNoContent, with_place};

use depot_model::{Answer, Request};
use outside_api::Gate;
use std::alloc::{AllocError, Global};

/// Who takes commands one after another, each at a place of its own.
pub trait Taker {
    /// Whether it can take a command.
    ghost can_take: { Self → Type 0 };

    /// Whether, since a moment as it counts them, it took the commands of these places, in order, from
    /// this depot on.
    ghost has_run: { Self → ℕ → List Deed → List Placed → Type 0 };

    /// Whether, from the one to the other, that to which it commits wasn't called.
    ghost unwritten: { Self → Self → Type 0 };

    /// Whether, from the one to the other, nothing was called and nothing changed.
    ghost untouched: { Self → Self → Type 0 };

    /// How often that failed to which it commits.
    ghost faults: { Self → ℕ };

    /// How often that failed which has the contents.
    ghost content_faults: { Self → ℕ };

    /// Takes a command and gives its place and its reply. At a fault place the commit failed, or a content
    /// couldn't be read or stored, and the command did nothing. The one error is want of memory, and then
    /// nothing is done. The command may be held back at the gate.
    fn take<G: Gate>(
        &mut self,
        alloc: Global,
        gate: &G,
        request: Request,
    ) -> Result<Answer, AllocError>
        requires { can_take self.old }
        ensures can { can_take self.new }
        ensures ran { (since : ℕ) (start : List Deed) (places : List Placed) → has_run self.old since start places →
            IsProper request → IfOk result (λ answer. has_run self.new since start (with_place places request answer)) }
        ensures answers { (since : ℕ) (start : List Deed) (places : List Placed) → has_run self.old since start places →
            IsProper request → IfOk result (Answers start places request) }
        ensures nothing { (since : ℕ) (start : List Deed) (places : List Placed) → has_run self.old since start places →
            OnErr result (has_run self.new since start places) }
        // A command after which no row differs commits nothing, and calls nothing where it prints no content.
        ensures no_write { (since : ℕ) (start : List Deed) (places : List Placed) →
            has_run self.old since start places → IsProper request → ChangesNoRow (taken step start places) request →
            unwritten self.old self.new }
        ensures no_call { (since : ℕ) (start : List Deed) (places : List Placed) → has_run self.old since start places →
            IsProper request → ChangesNoRow (taken step start places) request →
            PrintsNoContent (taken step start places) request → untouched self.old self.new }
        ensures never_falls { faults self.old ≤ faults self.new }
        ensures never_falls_contents { content_faults self.old ≤ content_faults self.new }
        // Where the place isn't that of a fault, and where memory was wanting, nothing that was called failed.
        ensures only { IfOk result (λ answer. answer.place.fault ≡ false →
            (faults self.new ≡ faults self.old) × (content_faults self.new ≡ content_faults self.old)) }
        ensures no_memory { OnErr result ((faults self.new ≡ faults self.old) ×
            (content_faults self.new ≡ content_faults self.old)) }
        ensures cause { IfOk result (λ answer. answer.place.fault ≡ true →
            HasRisen (faults self.old) (faults self.new) ⊎ HasRisen (content_faults self.old) (content_faults self.new)) };
}
