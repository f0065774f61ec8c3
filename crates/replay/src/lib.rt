// A whole journal is run, and its log is made, as `journal` defines it.
#![tactic(auto)]

ghost use Rattle.device.specs.Step.{device_of};
ghost use Rattle.journal.specs.Run.{Replays};

use entry::log_frame;
use journal::Replayed;
use state::CacheState;

pub fn replay(
    input: &[u8],
    state: &mut [u16; CacheState::WORDS],
    store: &mut [u8],
    window: &mut [u8],
    destination: &mut [u8],
    output: &mut [u8],
) -> Replayed
    ensures { Replays (device_of state.old store.old window.old destination.old) input.now output.old result state.new store.new window.new destination.new output.new }
{
    let mut rest = input;
    let mut number = 0;
    let mut written = 0;
    let mut carried = 0;
    // A turn goes on by as many bytes as its frame took up.
    // `fetchlog` has a loop of this form. One function for both would be lent all that a turn changes, which is no plainer.
    while !rest.is_empty() {
        let r = log_frame(
            number + 1,
            rest,
            state,
            store,
            window,
            destination,
            output,
            written,
        );
        written = r.next;
        if r.taken == 0 {
            return Replayed {
                carried,
                refused: number - carried,
                early: true,
                written,
            };
        }
        carried += usize::from(r.accepted);
        number += 1;
        rest = &rest[r.taken..];
    }
    Replayed {
        carried,
        refused: number - carried,
        early: false,
        written,
    }
}
