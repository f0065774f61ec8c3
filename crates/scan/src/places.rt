// Places in a text.
ghost use Rattle.std.specs.Prelude.{◌≡◌, eqb};
ghost use Rattle.scan.specs.Scan.{place, front, has_word};

use crate::Stop;
use crate::classes::stops;

// The first place from `from` on whose byte is of the class, or the end of the text.
pub fn until(text: &[u8], from: usize, stop: Stop) -> usize
    ensures { result ≡ place stop text.now from }
{
    for i in from..text.len() {
        if stops(stop, text[i]) {
            return i;
        }
    }
    from.max(text.len())
}

// Does a word follow?
pub fn has_word(text: &[u8], at: usize) -> bool
    ensures { result ≡ has_word text.now at }
{
    until(text, at, Stop::Word) < text.len()
}

// Do these bytes stand at the front of the text?
pub fn starts(bytes: &[u8], text: &[u8]) -> bool
    ensures { result ≡ front eqb bytes.now text.now }
{
    text.starts_with(bytes)
}
