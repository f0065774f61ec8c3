// The byte map's fetch: a span is delivered to the destination. What of it was not held before is read from the window, and is held from
// then on.
#![tactic(auto)]

ghost use Rattle.std.specs.Prelude.{◌≡◌, length};
ghost use Rattle.bytemap.specs.Map.{map_of};
ghost use Rattle.bytemap.specs.Fetch.{Fetches};
ghost use Rattle.mapfetch.specs.Delivery.{Fits, Delivers};

use crate::judge::judge;
use mapcalls::ByteMap;
use state::{MapFetchCounts, Refusal};
use stretches::take::take;

pub mod judge;

// The bytes of the span are taken into the values, go from there to the destination, and the span is set.
fn deliver(
    words: &mut [u64; ByteMap::WORDS],
    values: &mut [u8; ByteMap::ADDRESSES],
    window: &[u8],
    destination: &mut [u8],
    address: usize,
    size: usize,
)
    requires { Fits (length words.old) (length values.old) (length window.now) (length destination.old) address size }
    ensures { Delivers words.old values.old window.now destination.old address size words.new values.new destination.new }
{
    take(words, values, window, address, size);
    octets::copy_front(destination, &values[address..address + size]);
    bits::set_span(words, address, address + size);
}

pub fn fetch(
    flag: &u64,
    words: &mut [u64; ByteMap::WORDS],
    values: &mut [u8; ByteMap::ADDRESSES],
    window: &[u8],
    destination: &mut [u8],
    address: usize,
    size: usize,
) -> Result<MapFetchCounts, Refusal>
    ensures { Fetches (map_of flag.now words.old values.old) window.now destination.old address size result (map_of flag.now words.new values.new) destination.new }
{
    let counts = judge(
        *flag,
        words,
        values,
        window.len(),
        destination.len(),
        address,
        size,
    )?;
    deliver(words, values, window, destination, address, size);
    Ok(counts)
}
