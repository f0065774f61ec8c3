// A journal of frames, run from the fresh state.
ghost use Rattle.doorclover.specs.Journal.{Replays};

use state::CacheState;

// How many bytes of the log were written, how many frames were carried out and how many a call refused, and 1 if an unreadable frame
// ended the run. A run has no status.
#[repr(C)]
#[derive(Drop)]
pub struct Replayed {
    pub written: usize,
    pub carried: usize,
    pub refused: usize,
    pub early: u32,
}

#[unsafe(no_mangle)]
pub extern "C" fn doorclover_journal_replay(
    input: &[u8],
    store: &mut [u8],
    window: &mut [u8],
    destination: &mut [u8],
    output: &mut [u8],
) -> Replayed
    ensures { Replays input.now store.old window.old destination.old output.old result store.new window.new destination.new output.new }
{
    let mut state = CacheState::fresh();
    let r = replay::replay(input, &mut state.words, store, window, destination, output);
    Replayed {
        written: r.written,
        carried: r.carried,
        refused: r.refused,
        early: u32::from(r.early),
    }
}
