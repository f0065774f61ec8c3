// The byte map in code: what a caller lends, whether it holds together, begin and end, as `bytemap` defines them. Each address has a bit, set
// if its byte is held, and a value; a word says whether the command is open. The calls change the three where they stand. They take them as
// three parameters, since a caller in C lends each by its own address. Fetch and own write are in `mapfetch` and `mapwrite`.
#![tactic(auto)]

ghost use Rattle.std.specs.Prelude.{◌≡◌};
ghost use Rattle.bytemap.specs.Map.{fresh, map_of};

pub mod begin;
pub mod end;
pub mod holds;
mod reset;

#[derive(Drop)]
pub struct ByteMap {
    // 0 if the command is closed
    pub flag: u64,
    // the bit of address x is bit x % 64 of word x / 64
    pub words: [u64; ByteMap::WORDS],
    // the held byte of each address, and 0 where none is held
    pub values: [u8; ByteMap::ADDRESSES],
}

impl ByteMap {
    // How many addresses there are, and so the longest window.
    pub const ADDRESSES: usize = bits::ADDRESSES;
    // The words of the map, of 64 bits each.
    pub const WORDS: usize = bits::WORDS;

    // The command is closed, and nothing is held.
    pub fn fresh() -> ByteMap
        ensures { map_of result.flag result.words result.values ≡ fresh }
    {
        ByteMap {
            flag: 0,
            words: [0; ByteMap::WORDS],
            values: [0; ByteMap::ADDRESSES],
        }
    }
}
