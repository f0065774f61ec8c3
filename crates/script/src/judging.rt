// The lines of a file, judged one after the other.
ghost use Rattle.std.specs.Prelude.{◌≡◌, ◌≤◌, length, replicate};
ghost use Rattle.steps.specs.Frame.{framed_says};
ghost use Rattle.script.specs.Judging.{line_says, counts, judged_of, judgement};

use crate::lines::Lines;
use reporting::report;
use state::CacheState;
use std::io::Write;
use steps::Unframed;

// The most bytes of a file of steps.
pub const MOST: usize = 1048576;

// One byte more, which tells that there are more.
const INPUT: usize = MOST + 1;

// Room for the longest frame.
pub const FRAME: usize = CacheState::TRANSFER + 5;

// Room for an input.
pub fn room() -> [u8; INPUT]
    ensures { result ≡ replicate 1048577 0 }
{
    [0u8; INPUT]
}

// How many lines have no frame though they are not blank, and how many frames of how many bytes the others have.
#[derive(Clone, Copy)]
pub struct Judged {
    pub bad: usize,
    pub frames: usize,
    pub bytes: usize,
}

const NONE: Judged = Judged {
    bad: 0,
    frames: 0,
    bytes: 0,
};

// A file has more bytes than one may have.
#[derive(Clone, Copy)]
pub struct TooLong;

// What a line counts for.
fn counts(framed: Result<Option<usize>, Unframed>) -> Judged
    ensures { result ≡ counts (framed_says framed) }
{
    match framed {
        Ok(None) => NONE,
        Ok(Some(size)) => Judged {
            frames: 1,
            bytes: size,
            ..NONE
        },
        Err(_) => Judged { bad: 1, ..NONE },
    }
}

#[tactic(auto, using(crate::proofs::Saying::said))]
fn judge_line<E: Write>(
    errors: &mut E,
    program: &[u8],
    number: usize,
    line: &[u8],
    buffer: &mut [u8],
    frame: &mut [u8],
) -> Judged
    requires { (length buffer.old ≡ 4096) × (length frame.old ≡ 4101) }
    ensures { result ≡ counts (line_says line.now) }
{
    // an empty line costs no call, of which a file may have a mebibyte
    if line.is_empty() {
        return NONE;
    }
    let framed = steps::frame_of(line, buffer, frame);
    report(errors, program, number, line, framed);
    counts(framed)
}

fn judge_lines<E: Write>(errors: &mut E, program: &[u8], input: &[u8]) -> Judged
    requires { length input.now ≤ 1048576 }
    ensures { result ≡ judged_of input.now }
{
    let mut buffer = [0u8; CacheState::TRANSFER];
    let mut frame = [0u8; FRAME];
    let mut all = NONE;
    for (i, line) in Lines::of(input).enumerate() {
        let line = judge_line(errors, program, i + 1, line, &mut buffer, &mut frame);
        all.bad += line.bad;
        all.frames += line.frames;
        all.bytes += line.bytes;
    }
    all
}

// A file that is too long is not looked at.
#[tactic(auto, unfolding(crate::specs::Judging::judgement))]
pub fn judge<E: Write>(errors: &mut E, program: &[u8], input: &[u8]) -> Result<Judged, TooLong>
    ensures { result ≡ judgement input.now }
{
    if MOST < input.len() {
        return Err(TooLong);
    }
    Ok(judge_lines(errors, program, input))
}
