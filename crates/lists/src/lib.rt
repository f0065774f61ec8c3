// The lists behind PRP2.
#![tactic(auto)]

ghost use Rattle.std.specs.Prelude.{◌≡◌, ◌-◌, ◌/◌, ◌%◌, ◌≤◌, ◌<◌, length};
ghost use Rattle.prp.specs.Pages.{page_size, entry_size, needed};
ghost use Rattle.lists.specs.Lists.{asked, Lists};

use listing::list_page;
use pages::entries::entry;
use pages::spans::behind_first;
use state::{CacheState, Refusal};

// How many entries fit from PRP2 up to the end of its page.
fn room_in_page(prp2: u64) -> usize
    ensures { result ≡ (page_size - prp2 % page_size) / entry_size }
{
    (4096 - (prp2 % 4096) as usize) / 8
}

// The lists behind PRP2, one page of them or two: the second is fetched over the onward entry, so that the entries stand side by side.
pub fn gather_lists(
    state: &mut [u16; CacheState::WORDS],
    store: &mut [u8],
    window: &[u8],
    scratch: &mut [u8],
    command: usize,
    prp1: u64,
    prp2: u64,
    transfer: usize,
) -> Result<usize, Refusal>
    requires { (128 ≤ length scratch.old) × (1 < needed (asked command prp1 prp2 transfer window.now)) × (0 < transfer) × (transfer ≤ 65536) }
    ensures { Lists state.old store.old (asked command prp1 prp2 transfer window.now) result state.new store.new scratch.new }
{
    if prp2 % 8 != 0 {
        return Err(Refusal::EntryMisaligned);
    }
    let count = behind_first(prp1, transfer);
    let fit = room_in_page(prp2);
    let high = 8 * count;
    if count <= fit {
        return list_page(
            state,
            store,
            window,
            &mut scratch[..high],
            command,
            prp2,
            count,
        );
    }
    let mid = 8 * fit;
    let looked = list_page(
        state,
        store,
        window,
        &mut scratch[..mid],
        command,
        prp2,
        fit,
    )?;
    let last = fit - 1;
    let onward = entry(scratch, last);
    let low = 8 * last;
    let more = list_page(
        state,
        store,
        window,
        &mut scratch[low..high],
        command,
        onward,
        count - last,
    )?;
    Ok(looked + more)
}
