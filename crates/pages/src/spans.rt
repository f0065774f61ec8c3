// The spans of a walk, one a page, put into its lists.
ghost use Rattle.std.specs.Prelude.{◌≡◌, ◌∷◌, map, ◌-◌, ◌*◌, ◌≤◌, ◌<◌, length};
ghost use Rattle.octets.specs.Lists.{overwrite};
ghost use Rattle.state.specs.Records.{span};
ghost use Rattle.prp.specs.Pages.{transfer_most, spans_most, touched_by, share_in};
ghost use Rattle.prp.specs.Entries.{entries_in, entries_behind};

use crate::entries::entry;

// How many pages a transfer touches behind the first, which is how many entries are needed behind PRP1.
pub fn behind_first(prp1: u64, transfer: usize) -> usize
    requires { (0 < transfer) × (transfer ≤ transfer_most) }
    ensures { (result ≡ touched_by prp1 transfer - 1) × (result < spans_most) }
{
    ((prp1 % 4096) as usize + transfer - 1) / 4096
}

// Puts the entries into the list from its second place on, the last one first.
fn put_entries(list: &mut [u64], bytes: &[u8], count: usize)
    requires { (count < length list.old) × (8 * count ≤ length bytes.now) }
    ensures { list.new ≡ overwrite list.old 1 (entries_in count bytes.now) }
{
    for i in (0..count).rev() {
        list[i + 1] = entry(bytes, i);
    }
}

// The addresses: PRP1, and behind it PRP2 or the entries of the lists.
pub fn put_addresses(list: &mut [u64], prp1: u64, prp2: u64, bytes: &[u8], needed: usize)
    requires { (needed < length list.old) × (8 * needed ≤ length bytes.now) }
    ensures { list.new ≡ overwrite list.old 0 (prp1 ∷ entries_behind prp2 needed bytes.now) }
{
    list[0] = prp1;
    if needed == 1 {
        list[1] = prp2;
        return;
    }
    put_entries(list, bytes, needed);
}

// How many bytes of a transfer from `offset` up to `reach` lie in page i.
fn share_in(offset: usize, reach: usize, i: usize) -> u32
    requires { i < 17 }
    ensures { result ≡ share_in offset reach i }
{
    let low = 4096 * i;
    let high = low + 4096;
    reach.min(high).saturating_sub(offset.max(low)) as u32
}

// The lengths, the last one first.
pub fn put_lengths(list: &mut [u32], offset: usize, reach: usize, count: usize)
    requires { (count ≤ length list.old) × (count ≤ 17) }
    ensures { list.new ≡ overwrite list.old 0 (map (share_in offset reach) (span 0 count)) }
{
    for i in (0..count).rev() {
        list[i] = share_in(offset, reach, i);
    }
}
