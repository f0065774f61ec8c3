// Bytes from one buffer to another.
ghost use Rattle.std.specs.Prelude.{◌≡◌, ◌-◌, length, take};
ghost use Rattle.octets.specs.Lists.{overwrite};

// Copies the source over the front of the buffer, as much of it as there is room for.
pub fn copy_front(buffer: &mut [u8], source: &[u8])
    ensures { buffer.new ≡ overwrite buffer.old 0 (take (length buffer.old) source.now) }
{
    let n = buffer.len().min(source.len());
    // A loop of its own: a host's bytes are to be loaded once each, which a copy in bulk need not keep to.
    for i in 0..n {
        buffer[i] = source[i];
    }
}

// The same from a place on. Nothing is copied to a place past the end.
pub fn copy_at(buffer: &mut [u8], at: usize, source: &[u8])
    ensures { buffer.new ≡ overwrite buffer.old at (take (length buffer.old - at) source.now) }
{
    if at <= buffer.len() {
        copy_front(&mut buffer[at..], source);
    }
}
