// A step that was read is made as a call.
ghost use Rattle.std.specs.Prelude.{◌≡◌};
ghost use Rattle.device.specs.Step.{device_of, call_of, Makes};

use calls::begin::begin;
use calls::end::end;
use device::Made;
use frames::Step;
use loglines::Numbers;
use state::{CacheState, Refusal};

// Only a fetch delivers bytes.
fn undelivered(answer: Result<Numbers, Refusal>) -> Made
    ensures { result ≡ record { answer = answer; delivered = 0 } }
{
    Made {
        answer,
        delivered: 0,
    }
}

// A fetch delivers as many bytes as it asks for, or is refused.
pub(crate) fn make(
    step: Step,
    bytes: &[u8],
    state: &mut [u16; CacheState::WORDS],
    store: &mut [u8],
    window: &mut [u8],
    destination: &mut [u8],
) -> Made
    ensures { Makes (device_of state.old store.old window.old destination.old) (call_of step bytes.now destination.old window.old) result state.new store.new window.new destination.new }
{
    match step {
        Step::Begin { command } => undelivered(begin(state, store, command).map(Numbers::from)),
        Step::Fetch {
            command,
            address,
            size,
        } => {
            let answer = fetch::fetch(state, store, window, destination, command, address, size);
            Made {
                answer: answer.map(Numbers::from),
                delivered: answer.map_or(0, |_| size),
            }
        }
        Step::End { command } => undelivered(end(state, store, command).map(Numbers::from)),
        Step::HostWrite { address, .. } => {
            undelivered(hostwrite::host_write(window, address, bytes).map(Numbers::from))
        }
        Step::OwnWrite {
            command,
            address,
            ..
        } => {
            let written = ownwrite::own_write(state, store, window, command, address, bytes);
            undelivered(written.map(Numbers::from))
        }
    }
}
