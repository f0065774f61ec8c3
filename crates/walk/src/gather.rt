// The entries of a walk, judged one by one from PRP1 on; those of lists come into the scratch.
ghost use Rattle.std.specs.Prelude.{◌≤◌, ◌<◌, length};
ghost use Rattle.lists.specs.Lists.{asked};
ghost use Rattle.walk.specs.Parts.{Gathers};

use lists::gather_lists;
use pages::spans::behind_first;
use state::{CacheState, Refusal};

pub(crate) fn gather(
    state: &mut [u16; CacheState::WORDS],
    store: &mut [u8],
    window: &[u8],
    scratch: &mut [u8],
    command: usize,
    prp1: u64,
    prp2: u64,
    transfer: usize,
) -> Result<usize, Refusal>
    requires { (128 ≤ length scratch.old) × (0 < transfer) × (transfer ≤ 65536) }
    ensures { Gathers state.old store.old (asked command prp1 prp2 transfer window.now) result state.new store.new scratch.new }
{
    if prp1 % 4 != 0 {
        return Err(Refusal::EntryMisaligned);
    }
    let behind = behind_first(prp1, transfer);
    if 1 < behind {
        return gather_lists(state, store, window, scratch, command, prp1, prp2, transfer);
    }
    if behind == 0 {
        return Ok(0);
    }
    if prp2 % 4096 != 0 {
        return Err(Refusal::EntryMisaligned);
    }
    Ok(0)
}
