// One list page: the entries that are needed of it are one fetch, and are judged where they were delivered.
#![tactic(auto)]

ghost use Rattle.std.specs.Prelude.{◌≡◌, ◌*◌, ◌≤◌, length};
ghost use Rattle.listing.specs.Page.{ListsPage};

use fetch::fetch;
use pages::entries::all_pages;
use state::{CacheState, Refusal};

// One list page, of which `entries` has just the room for what is needed. If its entries are there and as they should be, the answer is how many
// records were looked at to fetch them.
pub fn list_page(
    state: &mut [u16; CacheState::WORDS],
    store: &mut [u8],
    window: &[u8],
    entries: &mut [u8],
    command: usize,
    address: u64,
    count: usize,
) -> Result<usize, Refusal>
    requires { (length entries.old ≡ 8 * count) × (count ≤ 16) }
    ensures { ListsPage state.old store.old window.now command address count result state.new store.new entries.new }
{
    let counts = fetch(
        state,
        store,
        window,
        entries,
        command,
        address as usize,
        8 * count,
    )?;
    if !all_pages(entries, count) {
        return Err(Refusal::EntryMisaligned);
    }
    Ok(counts.looked)
}
