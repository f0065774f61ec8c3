// What steps are made on: a state, a store, a window and a destination. What a step and a frame answer and leave: definitions in specs/,
// proofs of what is claimed of them in proofs/, and here what the code that makes them hands back. That code is in `execution`.
#![tactic(auto)]

use loglines::Numbers;
use state::Refusal;

// How many bytes the frame took up (0 if it is unreadable, as the definition `Carries` has it), its letter, the answer, and how many bytes were delivered to the front
// of the destination.
#[derive(Clone, Copy)]
pub struct Carried {
    pub taken: usize,
    pub letter: u8,
    pub answer: Result<Numbers, Refusal>,
    pub delivered: usize,
}

// The answer, and how many bytes were delivered to the front of the destination.
#[derive(Clone, Copy)]
pub struct Made {
    pub answer: Result<Numbers, Refusal>,
    pub delivered: usize,
}
