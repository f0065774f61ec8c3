// The page walk, over NVM Express PRP entries: what is judged before PRP1, the entries gathered, the spans put into the lists, and the scratch
// zeroed. Every entry of a list comes through the cache. The addresses and the lengths are two lists, since C lends each by its own address.
#![tactic(auto)]

mod gather;
mod spans;

ghost use Rattle.std.specs.Prelude.{◌≡◌, length};
ghost use Rattle.state.specs.Words.{state_of};
ghost use Rattle.admission.specs.Plan.{admission_reply};
ghost use Rattle.prp.specs.Entries.{judged};
ghost use Rattle.walk.specs.Parts.{early_checks};
ghost use Rattle.walk.specs.Walk.{lent, Walks};

use crate::gather::gather;
use crate::spans::conclude;
use admission::admit::admit;
use state::{CacheState, Refusal, WalkCounts};

// 31, 10, and then what a fetch of no bytes is judged by: 6, 7, 8, 20, 21.
#[tactic(auto, unfolding(state::specs::Verdict::verdict))]
fn judge(
    state: &[u16; CacheState::WORDS],
    store_len: usize,
    window_len: usize,
    scratch_len: usize,
    address_places: usize,
    length_places: usize,
    command: usize,
    transfer: usize,
) -> Result<(), Refusal>
    ensures { admission_reply result ≡ judged (early_checks (state_of state.now) store_len window_len scratch_len address_places length_places command transfer) }
{
    if transfer == 0 || 65536 < transfer {
        return Err(Refusal::TransferOutOfRange);
    }
    if scratch_len < 128 || address_places < 17 || length_places < 17 {
        return Err(Refusal::BufferTooShort);
    }
    admit(state, store_len, window_len, 0, command, 0, 0)
}

pub fn walk(
    state: &mut [u16; CacheState::WORDS],
    store: &mut [u8],
    window: &[u8],
    scratch: &mut [u8],
    addresses: &mut [u64],
    lengths: &mut [u32],
    command: usize,
    prp1: u64,
    prp2: u64,
    transfer: usize,
) -> Result<WalkCounts, Refusal>
    ensures { Walks state.old store.old (lent command prp1 prp2 transfer window.now scratch.old addresses.old lengths.old) result state.new store.new scratch.new addresses.new lengths.new }
{
    judge(
        state,
        store.len(),
        window.len(),
        scratch.len(),
        addresses.len(),
        lengths.len(),
        command,
        transfer,
    )?;
    let gathered = gather(state, store, window, scratch, command, prp1, prp2, transfer);
    let answer = conclude(gathered, scratch, addresses, lengths, prp1, prp2, transfer);
    scratch.fill(0);
    answer
}
