// One frame is carried out: read, and its call made.
ghost use Rattle.std.specs.Prelude.{◌≡◌, get_or};
ghost use Rattle.kinds.specs.Table.{kind_of};
ghost use Rattle.frames.specs.Read.{step_numbers};
ghost use Rattle.device.specs.Step.{device_of};
ghost use Rattle.device.specs.Frame.{Carries};

use crate::step::make;
use device::Carried;
use frames::Step;
use kinds::Kind;
use state::CacheState;

// The letter of an unreadable frame.
const UNREADABLE: u8 = b'?';

fn letter(step: Step) -> u8
    ensures { result ≡ (kind_of (get_or (step_numbers step) 0 0)).letter }
{
    match step {
        Step::Begin { .. } => Kind::Begin.letter(),
        Step::Fetch { .. } => Kind::Fetch.letter(),
        Step::End { .. } => Kind::End.letter(),
        Step::HostWrite { .. } => Kind::HostWrite.letter(),
        Step::OwnWrite { .. } => Kind::OwnWrite.letter(),
    }
}

pub fn carry_out(
    frame: &[u8],
    state: &mut [u16; CacheState::WORDS],
    store: &mut [u8],
    window: &mut [u8],
    destination: &mut [u8],
) -> Carried
    ensures { Carries (device_of state.old store.old window.old destination.old) frame.now result state.new store.new window.new destination.new }
{
    match frames::read(frame) {
        Ok(parsed) => {
            let bytes = frames::data(frame, parsed.consumed);
            let made = make(parsed.step, bytes, state, store, window, destination);
            Carried {
                taken: parsed.consumed,
                letter: letter(parsed.step),
                answer: made.answer,
                delivered: made.delivered,
            }
        }
        Err(why) => Carried {
            taken: 0,
            letter: UNREADABLE,
            answer: Err(why),
            delivered: 0,
        },
    }
}
