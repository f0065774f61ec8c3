// The calls of the record engine.
ghost use Rattle.std.specs.Prelude.{◌≡◌};
ghost use Rattle.state.specs.State.{fresh_state};
ghost use Rattle.state.specs.Words.{state_of};
ghost use Rattle.doorclover.specs.Calls.{Begins, Ends, Fetches, HostWrites, OwnWrites, Shows};

use replies::{
    Begun, Ended, Fetched, Shown, Written, begin_reply, end_reply, fetch_reply, own_write_reply,
    show_reply, write_reply,
};
use state::CacheState;

// Makes the fresh state.
#[unsafe(no_mangle)]
pub extern "C" fn doorclover_fresh(state: &mut [u16; CacheState::WORDS])
    ensures { state_of state.new ≡ fresh_state }
{
    let words = CacheState::fresh().words;
    *state = words;
}

#[unsafe(no_mangle)]
pub extern "C" fn doorclover_begin(
    state: &mut [u16; CacheState::WORDS],
    store: &mut [u8],
    command: usize,
) -> Begun
    ensures { Begins state.old store.old command result state.new store.new }
{
    begin_reply(calls::begin::begin(state, store, command))
}

#[unsafe(no_mangle)]
pub extern "C" fn doorclover_fetch(
    state: &mut [u16; CacheState::WORDS],
    store: &mut [u8],
    window: &[u8],
    destination: &mut [u8],
    command: usize,
    address: usize,
    size: usize,
) -> Fetched
    ensures { Fetches state.old store.old window.now destination.old command address size result state.new store.new destination.new }
{
    fetch_reply(fetch::fetch(state, store, window, destination, command, address, size))
}

#[unsafe(no_mangle)]
pub extern "C" fn doorclover_end(
    state: &mut [u16; CacheState::WORDS],
    store: &mut [u8],
    command: usize,
) -> Ended
    ensures { Ends state.old store.old command result state.new store.new }
{
    end_reply(calls::end::end(state, store, command))
}

#[unsafe(no_mangle)]
pub extern "C" fn doorclover_host_write(window: &mut [u8], address: usize, bytes: &[u8]) -> Written
    ensures { HostWrites window.old address bytes.now result window.new }
{
    write_reply(hostwrite::host_write(window, address, bytes))
}

#[unsafe(no_mangle)]
pub extern "C" fn doorclover_own_write(
    state: &mut [u16; CacheState::WORDS],
    store: &mut [u8],
    window: &mut [u8],
    command: usize,
    address: usize,
    bytes: &[u8],
) -> Written
    ensures { OwnWrites state.old store.old window.old command address bytes.now result state.new store.new window.new }
{
    own_write_reply(ownwrite::own_write(state, store, window, command, address, bytes))
}

#[unsafe(no_mangle)]
pub extern "C" fn doorclover_show(
    state: &[u16; CacheState::WORDS],
    command: usize,
    index: usize,
) -> Shown
    ensures { Shows state.now command index result }
{
    show_reply(show::show(state, command, index))
}
