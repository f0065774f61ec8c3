// An entry of the log: one frame is carried out, and its line is made.
#![tactic(auto)]

ghost use Rattle.device.specs.Step.{device_of};
ghost use Rattle.entry.specs.Logs.{Logs};

use execution::carry_out;
use state::CacheState;

// How many bytes the frame took up (0 if it is unreadable, as the definition `Logs` has it), whether it was accepted, and the place behind its line.
#[derive(Drop)]
pub struct Logged {
    pub taken: usize,
    pub accepted: bool,
    pub next: usize,
}

// The line is put into the output from `at` on, as far as it fits.
pub fn log_frame(
    number: usize,
    frame: &[u8],
    state: &mut [u16; CacheState::WORDS],
    store: &mut [u8],
    window: &mut [u8],
    destination: &mut [u8],
    output: &mut [u8],
    at: usize,
) -> Logged
    ensures { Logs (device_of state.old store.old window.old destination.old) number frame.now output.old at result state.new store.new window.new destination.new output.new }
{
    let carried = carry_out(frame, state, store, window, destination);
    let next = loglines::put_line(
        output,
        at,
        number,
        carried.letter,
        carried.answer,
        &destination[..carried.delivered],
    );
    Logged {
        taken: carried.taken,
        accepted: carried.answer.is_ok(),
        next,
    }
}
