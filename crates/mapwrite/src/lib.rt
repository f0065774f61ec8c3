// The byte map's own write: bytes go into the window, and the command holds them from then on, over older values too. No byte of the window
// is read.
#![tactic(auto)]

ghost use Rattle.std.specs.Prelude.{◌≡◌, ◌||◌, ◌+◌, ◌≤◌, length};
ghost use Rattle.octets.specs.Lists.{overwrite};
ghost use Rattle.state.specs.Records.{in_span};
ghost use Rattle.state.specs.Answers.{own_write_reply};
ghost use Rattle.bits.specs.Bits.{map_limit, is_set, words_of};
ghost use Rattle.bytemap.specs.Map.{map_of};
ghost use Rattle.bytemap.specs.OwnWrite.{own_says, OwnWrites};

use mapcalls::ByteMap;
use state::{OwnWriteCounts, Refusal};

// An own write is judged as a fetch of its span to a destination that has just the room.
fn judge(
    flag: u64,
    words: &[u64; ByteMap::WORDS],
    values: &[u8; ByteMap::ADDRESSES],
    window_len: usize,
    address: usize,
    size: usize,
) -> Result<OwnWriteCounts, Refusal>
    ensures { own_write_reply result ≡ own_says (map_of flag words.now values.now) window_len address size }
{
    let fetched = mapfetch::judge::judge(flag, words, values, window_len, size, address, size)?;
    Ok(OwnWriteCounts {
        written: size,
        fresh: fetched.fresh,
    })
}

// The bytes go among the values and into the window, and their span is set.
fn hold(
    words: &mut [u64; ByteMap::WORDS],
    values: &mut [u8; ByteMap::ADDRESSES],
    window: &mut [u8],
    address: usize,
    bytes: &[u8],
)
    requires { (address + length bytes.now ≤ map_limit) × (address + length bytes.now ≤ length window.old) }
    ensures words { words.new ≡ words_of (λ x. is_set words.old x || in_span address (length bytes.now) x) }
    ensures values { values.new ≡ overwrite values.old address bytes.now }
    ensures window { window.new ≡ overwrite window.old address bytes.now }
{
    octets::copy_at(values, address, bytes);
    bits::set_span(words, address, address + bytes.len());
    octets::copy_at(window, address, bytes);
}

pub fn own_write(
    flag: &u64,
    words: &mut [u64; ByteMap::WORDS],
    values: &mut [u8; ByteMap::ADDRESSES],
    window: &mut [u8],
    address: usize,
    bytes: &[u8],
) -> Result<OwnWriteCounts, Refusal>
    ensures { OwnWrites (map_of flag.now words.old values.old) window.old address bytes.now result (map_of flag.now words.new values.new) window.new }
{
    let counts = judge(*flag, words, values, window.len(), address, bytes.len())?;
    hold(words, values, window, address, bytes);
    Ok(counts)
}
