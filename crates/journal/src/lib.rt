// A journal of frames, run whole: what its log says, and what it leaves. Definitions in specs/, proofs of what is claimed of them in proofs/,
// and here what a run hands back and how long a journal the log program takes. The code is in `replay`.
#![tactic(auto)]

// The most bytes of a journal that the log program takes.
pub const MOST: usize = 32768;

// How many frames were carried out and how many a call refused, whether an unreadable frame ended the run, and how many bytes of the
// log were written.
#[derive(Drop)]
pub struct Replayed {
    pub carried: usize,
    pub refused: usize,
    pub early: bool,
    pub written: usize,
}
