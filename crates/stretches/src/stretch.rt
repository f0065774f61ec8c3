// A stretch: addresses one behind the other, within a word of the map, that are all held or all not.
ghost use Rattle.stretches.specs.Values.{Alike};

// So many of the lowest bits are like the lowest, at most n.
pub(crate) fn alike(bits: u64, n: usize) -> usize
    ensures { Alike bits n result }
{
    if bits % 2 == 1 {
        return (u64::trailing_zeros(!bits) as usize).min(n);
    }
    (u64::trailing_zeros(bits) as usize).min(n)
}
