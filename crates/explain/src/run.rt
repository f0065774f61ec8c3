// A run of frames or of steps, with a line of words for each frame.
use crate::checking::check;
use crate::unit::{begin_frame, begin_step};
use console::Streams;
use device::Carried;
use octets::put;
use script::Lines;
use state::CacheState;
use std::io::Write;

// The window of the log program.
const WINDOW: usize = 16384;

// Room for the longest line of words: 300 bytes before the words, 65 parts that were not held and 64 that were with 24 characters each around
// their bytes, 8,192 digits, and 64 records of 12 characters. No line of the log is as long.
const LINE: usize = 16384;

// How many frames there were and how many of them were carried out, whether an unreadable one ended the run, how many lines were written
// before the first that was not, and how many expectations held and failed.
#[derive(Clone, Copy)]
pub(crate) struct Tally {
    pub frames: usize,
    pub carried: usize,
    pub early: bool,
    pub kept: usize,
    pub held: usize,
    pub failed: usize,
}

// A run: the device, the buffer of a line, and what came of the frames so far.
#[derive(Drop)]
struct Run {
    state: CacheState,
    store: [u8; CacheState::STORE],
    window: [u8; WINDOW],
    destination: [u8; CacheState::TRANSFER],
    line: [u8; LINE],
    tally: Tally,
}

// One more if the test holds.
fn count(n: usize, test: bool) -> usize {
    n.saturating_add(usize::from(test))
}

impl Run {
    fn fresh() -> Run {
        Run {
            state: CacheState::fresh(),
            store: [0u8; CacheState::STORE],
            window: [0u8; WINDOW],
            destination: [0u8; CacheState::TRANSFER],
            line: [0u8; LINE],
            tally: Tally {
                frames: 0,
                carried: 0,
                early: false,
                kept: 0,
                held: 0,
                failed: 0,
            },
        }
    }

    // The number of the next frame.
    fn number(&self) -> usize {
        count(self.tally.frames, true)
    }

    // The line ends at a place, and is written if those before it were. Tells whether it was.
    fn write<O: Write, E: Write>(&mut self, streams: &mut Streams<O, E>, at: usize) -> bool {
        let wanted = self.tally.kept == self.tally.frames;
        let next = put(&mut self.line, at, b"\n");
        console::tell_if(streams, wanted, b"explain", &self.line, next)
    }

    // The next frame, whose line of words has begun. An unreadable one ends the run.
    fn carry_out<O: Write, E: Write>(
        &mut self,
        streams: &mut Streams<O, E>,
        frame: &[u8],
        at: usize,
    ) -> Carried {
        let before = self.state.words;
        let carried = execution::carry_out(
            frame,
            &mut self.state.words,
            &mut self.store,
            &mut self.window,
            &mut self.destination,
        );
        let n = console::within(&self.destination, carried.delivered);
        let next = wording::put_words(
            &mut self.line,
            at,
            frame,
            carried.answer,
            &before,
            &self.state.words,
            &self.destination[..n],
        );
        let kept = self.write(streams, next);
        let tally = &mut self.tally;
        tally.frames = count(tally.frames, true);
        tally.carried = count(tally.carried, carried.answer.is_ok());
        tally.early = carried.taken == 0;
        tally.kept = count(tally.kept, kept);
        carried
    }

    // What the log prints of the last frame, in the place of its line of words. Tells the place behind it.
    fn log(&mut self, carried: Carried) -> usize {
        let n = console::within(&self.destination, carried.delivered);
        loglines::put_line(
            &mut self.line,
            0,
            self.tally.frames,
            carried.letter,
            carried.answer,
            &self.destination[..n],
        )
    }

    // The next line of steps, and its frame, if it has one. The data of the frame pass through the destination.
    fn step<O: Write, E: Write>(
        &mut self,
        streams: &mut Streams<O, E>,
        place: usize,
        step: &[u8],
        frame: &mut [u8],
    ) {
        let Ok(Some(size)) = steps::frame_of(step, &mut self.destination, frame) else {
            return;
        };
        let n = console::within(frame, size);
        let number = self.number();
        let at = begin_step(&mut self.line, number, place, step);
        let carried = self.carry_out(streams, &frame[..n], at);
        let end = self.log(carried);
        let n = console::within(&self.line, end.saturating_sub(1));
        let met = check(&mut streams.errors, place, step, &self.line[..n]);
        self.tally.held = count(self.tally.held, met == Some(true));
        self.tally.failed = count(self.tally.failed, met == Some(false));
    }
}

pub(crate) fn explain_steps<O: Write, E: Write>(
    streams: &mut Streams<O, E>,
    input: &[u8],
) -> Tally {
    let mut run = Run::fresh();
    let mut frame = [0u8; script::FRAME];
    for (i, step) in Lines::of(input).enumerate() {
        run.step(streams, i + 1, step, &mut frame);
    }
    run.tally
}

pub(crate) fn explain_frames<O: Write, E: Write>(
    streams: &mut Streams<O, E>,
    input: &[u8],
) -> Tally {
    let mut run = Run::fresh();
    let mut rest = input;
    // A turn goes on by as many bytes as its frame took up.
    while !rest.is_empty() {
        let n = console::within(rest, script::FRAME);
        let number = run.number();
        let at = begin_frame(&mut run.line, number);
        let taken = run.carry_out(streams, &rest[..n], at).taken;
        if taken == 0 {
            break;
        }
        rest = &rest[rest.len().min(taken)..];
    }
    run.tally
}
