// Entries as they stand in a buffer: eight bytes each, the least byte first.
ghost use Rattle.std.specs.Prelude.{◌≡◌, ◌+◌, ◌*◌, ◌≤◌, length};
ghost use Rattle.octets.specs.Lists.{all, part};
ghost use Rattle.endian.specs.LittleEndian.{least_first};
ghost use Rattle.prp.specs.Pages.{page_size};
ghost use Rattle.prp.specs.Entries.{entries_in, is_multiple};

use endian::least_first;

// Entry i, counted from 0.
pub fn entry(bytes: &[u8], i: usize) -> u64
    requires { 8 * i + 8 ≤ length bytes.now }
    ensures { result ≡ least_first (part bytes.now (8 * i) 8) }
{
    let low = 8 * i;
    let high = low + 8;
    least_first(&bytes[low..high])
}

// Whether each of the first entries is the address of a page.
pub fn all_pages(bytes: &[u8], count: usize) -> bool
    requires { 8 * count ≤ length bytes.now }
    ensures { result ≡ all (is_multiple page_size) (entries_in count bytes.now) }
{
    for i in 0..count {
        let address = entry(bytes, i);
        if address % 4096 != 0 {
            return false;
        }
    }
    true
}
