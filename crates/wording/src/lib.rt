// What was read of a frame and what came of it, in words.
#![tactic(auto)]

use frames::Step;
use loglines::Numbers;
use octets::put;
use phrases::{put_asked, put_done, put_refused};
use state::{CacheState, Refusal};

mod parts;
mod phrases;

fn put_step(
    line: &mut [u8],
    at: usize,
    step: Step,
    answer: Result<Numbers, Refusal>,
    data: &[u8],
    before: &[u16; CacheState::WORDS],
    state: &[u16; CacheState::WORDS],
    delivered: &[u8],
) -> usize {
    let next = put_asked(line, at, step);
    match answer {
        Ok(numbers) => put_done(line, next, step, numbers, data, before, state, delivered),
        Err(refusal) => put_refused(line, next, refusal),
    }
}

// The state is given as it was before the frame, and as it is.
pub fn put_words(
    line: &mut [u8],
    at: usize,
    frame: &[u8],
    answer: Result<Numbers, Refusal>,
    before: &[u16; CacheState::WORDS],
    state: &[u16; CacheState::WORDS],
    delivered: &[u8],
) -> usize {
    match frames::read(frame) {
        Ok(parsed) => {
            let step = parsed.step;
            let data = frames::data(frame, parsed.consumed);
            put_step(line, at, step, answer, data, before, state, delivered)
        }
        Err(refusal) => {
            let next = put(line, at, b"an unreadable frame");
            put_refused(line, next, refusal)
        }
    }
}
