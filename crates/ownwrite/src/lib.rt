// Own write: an open command writes bytes into the window, and holds them as if it had fetched them there. What is held comes from the bytes
// that are given, and the window is not read.
#![tactic(auto)]

ghost use Rattle.std.specs.Prelude.{◌≡◌, [], true, cond, ◌+◌, ◌<◌, ◌≤◌, leb, length};
ghost use Rattle.octets.specs.Lists.{overwrite};
ghost use Rattle.state.specs.Verdict.{replied, accepted, verdict};
ghost use Rattle.cache.specs.Fetch.{admit_checks};
ghost use Rattle.state.specs.Limits.{command_limit, held_limit, store_size};
ghost use Rattle.state.specs.Words.{state_of};
ghost use Rattle.store.specs.Store.{part_start};
ghost use Rattle.ownwrite.specs.OwnWrite.{OwnWrites};

use admission::admit::admit;
use holding::hold_span;
use state::{CacheState, OwnWriteCounts, Refusal};
use store::part;

// The bytes of a span that is held are put over what was held of it before. Where all of its addresses are new they stand there already.
fn put_over(store: &mut [u8], command: usize, place: usize, bytes: &[u8], fresh: usize)
    requires { (command < command_limit) × (length store.old ≡ store_size) × (place + length bytes.now ≤ held_limit) }
    ensures { store.new ≡ cond (leb (length bytes.now) fresh) store.old (overwrite store.old (part_start command + place) bytes.now) }
{
    if bytes.len() <= fresh {
        return;
    }
    part::put(store, command, place, bytes);
}

// A byte or more: they are held, if there is room for what they bring, put over what was held of their span before, and written into the window.
fn write_span(
    state: &mut [u16; CacheState::WORDS],
    store: &mut [u8],
    window: &mut [u8],
    command: usize,
    address: usize,
    bytes: &[u8],
) -> Result<OwnWriteCounts, Refusal>
    requires { (accepted (verdict (admit_checks (state_of state.old) (length store.old) (length window.old) (length bytes.now) command address (length bytes.now)) (replied [])) ≡ true) × (0 < length bytes.now) }
    ensures { OwnWrites state.old store.old window.old command address bytes.now result state.new store.new window.new }
{
    let written = bytes.len();
    let held = hold_span(state, store, bytes, address, command, address, written)?;
    put_over(store, command, held.place, bytes, held.fresh);
    octets::copy_at(window, address, bytes);
    Ok(OwnWriteCounts {
        written,
        fresh: held.fresh,
    })
}

// The call is admitted as a fetch of the span is, into a destination that has room for it.
pub fn own_write(
    state: &mut [u16; CacheState::WORDS],
    store: &mut [u8],
    window: &mut [u8],
    command: usize,
    address: usize,
    bytes: &[u8],
) -> Result<OwnWriteCounts, Refusal>
    ensures { OwnWrites state.old store.old window.old command address bytes.now result state.new store.new window.new }
{
    let size = bytes.len();
    admit(
        state,
        store.len(),
        window.len(),
        size,
        command,
        address,
        size,
    )?;
    if size == 0 {
        return Ok(OwnWriteCounts {
            written: 0,
            fresh: 0,
        });
    }
    write_span(state, store, window, command, address, bytes)
}
