// What a case text is answered.
#![tactic(auto)]

use flows::Flows;
use outcome::Solved;

// Of a text that was read: the number of buses, that of branches whose flows are told, and what the solve of the tables answers.
#[derive(Clone, Copy)]
pub struct Read {
    pub buses: usize,
    pub branches: usize,
    pub outcome: Result<Solved, outcome::Refusal>,
}

// A text's answer, a refusal of the reader or what was read, with the flows.
#[derive(Clone, Copy)]
pub struct FlowAnswer {
    pub answered: Result<Read, case_text::Refusal>,
    pub flows: Flows,
}
