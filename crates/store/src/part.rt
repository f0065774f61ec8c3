// A command's part of the store. Nothing else in the code says where a part stands.
ghost use Rattle.std.specs.Prelude.{◌≡◌, ◌+◌, ◌<◌, ◌≤◌, length, drop};
ghost use Rattle.octets.specs.Lists.{overwrite, part};
ghost use Rattle.state.specs.Limits.{command_limit, held_limit, store_size, command_words};
ghost use Rattle.state.specs.Records.{total};
ghost use Rattle.state.specs.State.{records_in};
ghost use Rattle.state.specs.Join.{replaced};
ghost use Rattle.store.specs.Store.{part_start, cleared, packed, from, sees};
ghost use Rattle.store.specs.Hold.{Fits};
ghost use Rattle.state.specs.Words.{command_in};

use crate::hold;
use state::{CacheState, Meeting};

// Where it begins.
fn start(command: usize) -> usize
    requires { command < command_limit }
    ensures { (result ≡ part_start command) × (result + held_limit ≤ store_size) }
{
    CacheState::HELD * command
}

// Sets its first `size` bytes to zero.
pub fn zero(store: &mut [u8], command: usize, size: usize)
    requires { (command < command_limit) × (length store.old ≡ store_size) × (size ≤ held_limit) }
    ensures { store.new ≡ cleared store.old command size }
{
    let low = start(command);
    store[low..low + size].fill(0);
}

// Holds a span in it: the records of the command are replaced by those after the join. The source's first byte has the address
// `base`.
pub fn hold(
    store: &mut [u8],
    command: usize,
    source: &[u8],
    base: usize,
    words: &[u16],
    m: Meeting,
    fresh: usize,
    behind: usize,
)
    requires { (command < command_limit) × (length store.old ≡ store_size) × (length words.now ≡ command_words) × (Fits (command_in words.now) m fresh held_limit base (length source.now)) × (behind ≡ total (drop m.last (records_in (command_in words.now)))) }
    ensures { store.new ≡ packed store.old command (replaced (records_in (command_in words.now)) m) (sees (records_in (command_in words.now)) (λ k. part_start command + k) store.old (from base source.now)) }
{
    let low = start(command);
    let part = &mut store[low..low + CacheState::HELD];
    hold::hold(part, source, base, words, m, fresh, behind);
}

// Copies `size` of its bytes, from a place on, to the front of the destination.
pub fn deliver(store: &[u8], command: usize, place: usize, size: usize, destination: &mut [u8])
    requires { (command < command_limit) × (length store.now ≡ store_size) × (place + size ≤ held_limit) × (size ≤ length destination.old) }
    ensures { destination.new ≡ overwrite destination.old 0 (part store.now (part_start command + place) size) }
{
    let from = start(command) + place;
    octets::copy_front(destination, &store[from..from + size]);
}

// Puts bytes into it, from a place on, over those that stand there.
pub fn put(store: &mut [u8], command: usize, place: usize, bytes: &[u8])
    requires { (command < command_limit) × (length store.old ≡ store_size) × (place + length bytes.now ≤ held_limit) }
    ensures { store.new ≡ overwrite store.old (part_start command + place) bytes.now }
{
    octets::copy_at(store, start(command) + place, bytes);
}
