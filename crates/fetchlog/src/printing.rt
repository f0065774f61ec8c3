// A journal is run. The line of each frame is made whole at the front of a buffer and written to standard output.
ghost use Rattle.std.specs.Prelude.{◌≡◌, cond, ◌+◌, ◌-◌, ◌≤◌, ◌<◌, ◌^◌, length, IsTrue};
ghost use Rattle.std.specs.Io.KnownBytes.{Appends};
ghost use Rattle.loglines.specs.Line.{line_of};
ghost use Rattle.device.specs.Step.{device_of};
ghost use Rattle.device.specs.Frame.{letter_of, frame_says, frame_delivers};
ghost use Rattle.journal.specs.Run.{entries, log_from};
ghost use Rattle.fetchlog.specs.Print.{Shows, Prints};

use console::Streams;
use state::CacheState;
use std::io::Write;

// Room for the longest line.
pub(crate) const LINE: usize = 8448;

// How many bytes a frame took up (0 if it is unreadable, as the definition `Shows` has it), whether it was accepted, how many bytes its line has, and whether all of
// them were written.
#[derive(Drop)]
pub struct Shown {
    pub taken: usize,
    pub accepted: bool,
    pub size: usize,
    pub kept: bool,
}

// How many frames there were, how many of them were carried out and how many a call refused, whether an unreadable one ended the run,
// and how many lines were written before the first that was not.
#[derive(Drop)]
pub struct Printed {
    pub frames: usize,
    pub carried: usize,
    pub refused: usize,
    pub early: bool,
    pub kept: usize,
}

fn print_frame<O: Write, E: Write>(
    streams: &mut Streams<O, E>,
    number: usize,
    frame: &[u8],
    state: &mut [u16; CacheState::WORDS],
    store: &mut [u8],
    window: &mut [u8],
    destination: &mut [u8],
    line: &mut [u8],
    wanted: bool,
) -> Shown
    requires { length line.old ≡ 8448 }
    ensures shows { Shows (device_of state.old store.old window.old destination.old) number frame.now line.old result state.new store.new window.new destination.new line.new }
    ensures printed { IsTrue result.kept → (let d = device_of state.old store.old window.old destination.old in Appends (O.contents streams.old.output) (O.contents streams.new.output) (line_of number (letter_of frame.now) (frame_says d frame.now) (frame_delivers d frame.now))) }
{
    let logged = entry::log_frame(number, frame, state, store, window, destination, line, 0);
    let size = logged.next;
    Shown {
        taken: logged.taken,
        accepted: logged.accepted,
        size,
        kept: console::tell_if(streams, wanted, b"fetchlog", line, size),
    }
}

// How a run went in which so many frames were read; an unreadable one may have ended it.
fn summed(read: usize, carried: usize, early: bool, kept: usize) -> Printed
    requires { (carried ≤ read) × (read + 1 < 2 ^ 64) }
    ensures run { (result.carried ≡ carried) × (result.refused ≡ read - carried) × (result.early ≡ early) × (result.frames ≡ read + cond early 1 0) }
    ensures kept { result.kept ≡ kept }
{
    Printed {
        frames: read + usize::from(early),
        carried,
        refused: read - carried,
        early,
        kept,
    }
}

// Every frame is carried out, also when lines are no longer written.
pub(crate) fn print_log<O: Write, E: Write>(
    streams: &mut Streams<O, E>,
    input: &[u8],
    state: &mut [u16; CacheState::WORDS],
    store: &mut [u8],
    window: &mut [u8],
    destination: &mut [u8],
    line: &mut [u8],
) -> Printed
    requires { length line.old ≡ 8448 }
    ensures prints { Prints (device_of state.old store.old window.old destination.old) input.now result state.new store.new window.new destination.new }
    ensures printed { result.kept ≡ result.frames → Appends (O.contents streams.old.output) (O.contents streams.new.output) (log_from 1 (entries (device_of state.old store.old window.old destination.old) input.now)) }
{
    let mut rest = input;
    let mut number = 0;
    let mut carried = 0;
    let mut kept = 0;
    // A turn goes on by as many bytes as its frame took up.
    // `replay` has a loop of this form. One function for both would be lent all that a turn changes, which is no plainer.
    while !rest.is_empty() {
        let r = print_frame(
            streams,
            number + 1,
            rest,
            state,
            store,
            window,
            destination,
            line,
            kept == number,
        );
        kept += usize::from(r.kept);
        if r.taken == 0 {
            return summed(number, carried, true, kept);
        }
        carried += usize::from(r.accepted);
        number += 1;
        rest = &rest[r.taken..];
    }
    summed(number, carried, false, kept)
}
