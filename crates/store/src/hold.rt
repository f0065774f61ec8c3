// A span comes to be held: in a command's part of the store, the bytes of the joined record are put side by side.
ghost use Rattle.std.specs.Prelude.{◌≡◌, ◌+◌, ◌-◌, ◌<◌, ◌≤◌, length, take, drop};
ghost use Rattle.octets.specs.Lists.{overwrite};
ghost use Rattle.state.specs.Records.{total};
ghost use Rattle.state.specs.State.{records_in};
ghost use Rattle.store.specs.Hold.{Fits, filled, repacked};
ghost use Rattle.state.specs.Limits.{command_words};
ghost use Rattle.state.specs.Words.{command_in};

use state::Meeting;
use words::entries::entry;

// The one door to the host: the bytes of the source from the address `low` up to `high` go into the part. The source's first byte has the
// address `base`. A fetch's source is the window, an own write's the bytes that it is given.
fn read_host(part: &mut [u8], at: usize, source: &[u8], base: usize, low: usize, high: usize)
    requires { low < high → (base ≤ low) × (high ≤ base + length source.now) }
    ensures { part.new ≡ overwrite part.old at (take (length part.old - at) (take (high - low) (drop (low - base) source.now))) }
{
    if low < high {
        octets::copy_at(part, at, &source[low - base..high - base]);
    }
}

// Puts the bytes of the joined record in their place, from the last record that was met down: those above it, which are fresh, and
// then its own. At each turn `gap` fresh bytes are still to come, `old` is where the records still to come end, and `top` is the
// address up to which nothing is done.
fn fill(part: &mut [u8], source: &[u8], base: usize, words: &[u16], m: Meeting, fresh: usize)
    requires { (length words.now ≡ command_words) × Fits (command_in words.now) m fresh (length part.old) base (length source.now) }
    ensures { part.new ≡ filled (records_in (command_in words.now)) m part.old base source.now }
{
    let mut gap = fresh;
    let mut old = m.below + m.held;
    let mut top = m.high;
    for k in (m.first..m.last).rev() {
        let r = entry(words, k);
        let start = usize::from(r.start);
        let len = usize::from(r.len);
        let past = start + len;
        gap -= top - past;
        read_host(part, old + gap, source, base, past, top);
        old -= len;
        octets::move_up(part, old, len, gap);
        top = start;
    }
    read_host(part, old, source, base, m.low, top);
}

// The bytes behind the joined record, of which there are `behind`, move up, and the record is filled. Where nothing is fresh, every
// byte stands in its place already and none is moved.
pub(crate) fn hold(
    part: &mut [u8],
    source: &[u8],
    base: usize,
    words: &[u16],
    m: Meeting,
    fresh: usize,
    behind: usize,
)
    requires { (length words.now ≡ command_words) × (Fits (command_in words.now) m fresh (length part.old) base (length source.now)) × (behind ≡ total (drop m.last (records_in (command_in words.now)))) }
    ensures { part.new ≡ repacked (records_in (command_in words.now)) m part.old base source.now }
{
    octets::move_up(part, m.below + m.held, behind, fresh);
    fill(part, source, base, words, m, fresh);
}
