//! The gate of a run, and what is told of it.

use crate::step::{GateForm, GatePlan};
use memory_world::OpenGate;
use outside_api::Gate;
use waiting_gates::{MeetGate, TurnGate};

/// The gate of a run.
pub enum CaseGate {
    /// It holds nobody.
    Open(OpenGate),
    /// It holds a command until another was answered.
    Turn(TurnGate),
    /// It holds two commands until both came.
    Meet(MeetGate),
}

impl Drop for CaseGate {
    fn drop(self) {
        match self {
            CaseGate::Open(_) => {}
            CaseGate::Turn(_) => {}
            CaseGate::Meet(_) => {}
        }
    }
}

/// The word for whether a thing was so.
fn answer_word(holds: bool) -> &'static str {
    if holds { "yes" } else { "no" }
}

impl CaseGate {
    /// A gate that holds nobody.
    pub fn open() -> Self {
        CaseGate::Open(OpenGate)
    }

    /// The gate of a plan.
    pub fn planned(plan: GatePlan) -> Self {
        let GatePlan {
            form,
            one,
            other,
            turns,
        } = plan;
        match form {
            GateForm::Turn => CaseGate::Turn(TurnGate::new(one, other, turns)),
            GateForm::Meet => CaseGate::Meet(MeetGate::new(one, other, turns)),
        }
    }

    /// Whether it fixes the order of a run.
    pub fn is_turn(&self) -> bool {
        matches!(self, CaseGate::Turn(_))
    }

    /// What is told of it behind a run: a word, and another for whether it was so. None of a gate that holds nobody.
    pub fn end(&self) -> Option<(&'static str, &'static str)> {
        match self {
            CaseGate::Open(_) => None,
            CaseGate::Turn(gate) => Some(("released ", answer_word(gate.released()))),
            CaseGate::Meet(gate) => Some(("met ", answer_word(gate.met()))),
        }
    }
}

impl Gate for CaseGate {
    fn pass(&self, party: u32, number: u32) {
        match self {
            CaseGate::Open(gate) => gate.pass(party, number),
            CaseGate::Turn(gate) => gate.pass(party, number),
            CaseGate::Meet(gate) => gate.pass(party, number),
        }
    }

    fn answered(&self, party: u32, number: u32) {
        match self {
            CaseGate::Open(gate) => gate.answered(party, number),
            CaseGate::Turn(gate) => gate.answered(party, number),
            CaseGate::Meet(gate) => gate.answered(party, number),
        }
    }
}
