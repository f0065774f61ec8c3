// The page walk.
ghost use Rattle.walk.specs.Walk.{lent};
ghost use Rattle.doorclover.specs.Walk.{Walks};

use replies::{Walked, walk_reply};
use state::CacheState;

#[unsafe(no_mangle)]
pub extern "C" fn doorclover_walk(
    state: &mut [u16; CacheState::WORDS],
    store: &mut [u8],
    window: &[u8],
    scratch: &mut [u8],
    addresses: &mut [u64],
    lengths: &mut [u32],
    command: usize,
    prp1: u64,
    prp2: u64,
    transfer: usize,
) -> Walked
    ensures { Walks state.old store.old (lent command prp1 prp2 transfer window.now scratch.old addresses.old lengths.old) result state.new store.new scratch.new addresses.new lengths.new }
{
    walk_reply(walk::walk(
        state, store, window, scratch, addresses, lengths, command, prp1, prp2, transfer,
    ))
}
