// The whole map is cleared, as begin and end do it.
ghost use Rattle.std.specs.Prelude.{◌≡◌};
ghost use Rattle.bytemap.specs.Map.{map_of, cleared};

use crate::ByteMap;

pub(crate) fn reset(
    flag: &mut u64,
    words: &mut [u64; ByteMap::WORDS],
    values: &mut [u8; ByteMap::ADDRESSES],
    to: u64,
)
    ensures { map_of flag.new words.new values.new ≡ cleared to }
{
    *flag = to;
    words.fill(0);
    values.fill(0);
}
