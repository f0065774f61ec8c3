// Whether a span ends behind the window.
ghost use Rattle.std.specs.Prelude.{◌≡◌, ◌+◌, ltb};

// By the true sum of address and length: it is not formed, so it cannot wrap.
pub fn outside(window_len: usize, address: usize, size: usize) -> bool
    ensures { result ≡ ltb window_len (address + size) }
{
    if window_len < size {
        return true;
    }
    window_len - size < address
}
