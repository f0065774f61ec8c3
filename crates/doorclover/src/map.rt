// The byte map's calls. The three parts of a map are lent by their addresses: its flag, its words and its values.
ghost use Rattle.std.specs.Prelude.{◌≡◌};
ghost use Rattle.bytemap.specs.Map.{map_of, fresh};
ghost use Rattle.doorclover.specs.Map.{MapBegins, MapFetches, MapEnds, MapOwnWrites};

use mapcalls::ByteMap;
use replies::{
    Begun, Ended, Fetched, Written, begin_reply, end_reply, map_fetch_reply, own_write_reply,
};

// Makes the fresh map.
#[unsafe(no_mangle)]
pub extern "C" fn doorclover_map_fresh(
    flag: &mut u64,
    words: &mut [u64; ByteMap::WORDS],
    values: &mut [u8; ByteMap::ADDRESSES],
)
    ensures { map_of flag.new words.new values.new ≡ fresh }
{
    *flag = 0;
    *words = [0; ByteMap::WORDS];
    *values = [0; ByteMap::ADDRESSES];
}

#[unsafe(no_mangle)]
pub extern "C" fn doorclover_map_begin(
    flag: &mut u64,
    words: &mut [u64; ByteMap::WORDS],
    values: &mut [u8; ByteMap::ADDRESSES],
) -> Begun
    ensures { MapBegins (map_of flag.old words.old values.old) result (map_of flag.new words.new values.new) }
{
    begin_reply(mapcalls::begin::begin(flag, words, values))
}

#[unsafe(no_mangle)]
pub extern "C" fn doorclover_map_fetch(
    flag: &u64,
    words: &mut [u64; ByteMap::WORDS],
    values: &mut [u8; ByteMap::ADDRESSES],
    window: &[u8],
    destination: &mut [u8],
    address: usize,
    size: usize,
) -> Fetched
    ensures { MapFetches (map_of flag.now words.old values.old) window.now destination.old address size result (map_of flag.now words.new values.new) destination.new }
{
    map_fetch_reply(mapfetch::fetch(flag, words, values, window, destination, address, size))
}

#[unsafe(no_mangle)]
pub extern "C" fn doorclover_map_end(
    flag: &mut u64,
    words: &mut [u64; ByteMap::WORDS],
    values: &mut [u8; ByteMap::ADDRESSES],
) -> Ended
    ensures { MapEnds (map_of flag.old words.old values.old) result (map_of flag.new words.new values.new) }
{
    end_reply(mapcalls::end::end(flag, words, values))
}

#[unsafe(no_mangle)]
pub extern "C" fn doorclover_map_own_write(
    flag: &u64,
    words: &mut [u64; ByteMap::WORDS],
    values: &mut [u8; ByteMap::ADDRESSES],
    window: &mut [u8],
    address: usize,
    bytes: &[u8],
) -> Written
    ensures { MapOwnWrites (map_of flag.now words.old values.old) window.old address bytes.now result (map_of flag.now words.new values.new) window.new }
{
    own_write_reply(mapwrite::own_write(flag, words, values, window, address, bytes))
}
