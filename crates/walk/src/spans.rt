// The spans, put into the lists that the walk was lent.
ghost use Rattle.std.specs.Prelude.{[], ◌≤◌, ◌<◌, length};
ghost use Rattle.lists.specs.Lists.{asked};
ghost use Rattle.walk.specs.Parts.{Concludes};

use pages::spans::{behind_first, put_addresses, put_lengths};
use state::{Refusal, WalkCounts};

// Once the entries are gathered, the spans go into the lists.
pub(crate) fn conclude(
    gathered: Result<usize, Refusal>,
    scratch: &[u8],
    addresses: &mut [u64],
    lengths: &mut [u32],
    prp1: u64,
    prp2: u64,
    transfer: usize,
) -> Result<WalkCounts, Refusal>
    requires { (128 ≤ length scratch.now) × (17 ≤ length addresses.old) × (17 ≤ length lengths.old) × (0 < transfer) × (transfer ≤ 65536) }
    ensures { Concludes gathered (asked 0 prp1 prp2 transfer []) scratch.now addresses.old lengths.old result addresses.new lengths.new }
{
    let looked = gathered?;
    let offset = (prp1 % 4096) as usize;
    let behind = behind_first(prp1, transfer);
    let spans = behind + 1;
    put_addresses(addresses, prp1, prp2, scratch, behind);
    put_lengths(lengths, offset, offset + transfer, spans);
    Ok(WalkCounts { spans, looked })
}
