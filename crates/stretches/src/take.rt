// The bytes of a span come to be held: those that were not are read from the window.
ghost use Rattle.std.specs.Prelude.{◌≡◌, ◌+◌, ◌≤◌, length};
ghost use Rattle.octets.specs.Lists.{overwrite, part};
ghost use Rattle.bits.specs.Bits.{is_set, map_limit};
ghost use Rattle.stretches.specs.Values.{bits_from, taken, Stretch};

use crate::stretch::alike;

// The one door to the host: the n bytes of the window from an address on go into the values there.
fn read_host(values: &mut [u8], window: &[u8], address: usize, n: usize)
    requires { (address + n ≤ length values.old) × (address + n ≤ length window.now) }
    ensures { values.new ≡ overwrite values.old address (part window.now address n) }
{
    octets::copy_at(values, address, &window[address..address + n]);
}

// The bytes of a stretch, of which the lowest bit tells whether it is held.
fn take_stretch(bits: u64, values: &mut [u8], window: &[u8], low: usize, n: usize)
    requires { Stretch bits n × (low + n ≤ length values.old) × (low + n ≤ length window.now) }
    ensures { values.new ≡ overwrite values.old low (taken (bits_from low bits) values.old window.now low n) }
{
    if bits % 2 == 1 {
        return;
    }
    read_host(values, window, low, n);
}

// The bytes of the n addresses from `low` on, stretch after stretch.
pub fn take(
    words: &[u64; bits::WORDS],
    values: &mut [u8; bits::ADDRESSES],
    window: &[u8],
    low: usize,
    n: usize,
)
    requires { (low + n ≤ map_limit) × (low + n ≤ length window.now) }
    ensures { values.new ≡ overwrite values.old low (taken (is_set words.now) values.old window.now low n) }
{
    let mut i = 0;
    // a while, since a step is as long as its stretch
    while i < n {
        let x = low + i;
        let rest = words[x / 64] >> (x % 64);
        let k = alike(rest, (64 - x % 64).min(n - i));
        take_stretch(rest, values, window, x, k);
        i += k;
    }
}
