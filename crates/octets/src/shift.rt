// Bytes to another place of their own buffer.
ghost use Rattle.std.specs.Prelude.{◌≡◌, ◌+◌, ◌-◌, min, length};
ghost use Rattle.octets.specs.Lists.{overwrite, part};

// Moves the `count` bytes from `from` on up by `by` places, as many of the lowest as there is room for.
// The highest go first, so that none is written over before it is read.
pub fn move_up(buffer: &mut [u8], from: usize, count: usize, by: usize)
    ensures { buffer.new ≡ overwrite buffer.old (from + by) (part buffer.old from (min count (length buffer.old - (from + by)))) }
{
    if buffer.len() < from {
        return;
    }
    // bytes that stay in their place cost nothing
    if by == 0 {
        return;
    }
    let above = buffer.len() - from;
    if above < by {
        return;
    }
    let to = from + by;
    let n = count.min(above - by);
    for k in (0..n).rev() {
        buffer[to + k] = buffer[from + k];
    }
}
