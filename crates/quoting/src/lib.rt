// A text as a message shows it: cut, and with what is no printable character in hexadecimal.
#![tactic(auto)]

ghost use Rattle.std.specs.Prelude.{◌≡◌};
ghost use Rattle.octets.specs.Text.{Puts};
ghost use Rattle.quoting.specs.Quoting.{is_plain, quoted_byte, quoted};

use octets::put;
use text::{put_byte, put_hex};

// The most bytes of a text that are shown.
const SHOWN: usize = 60;

fn is_plain(byte: u8) -> bool
    ensures { result ≡ is_plain byte }
{
    matches!(byte, b' '..=b'~') && byte != b'\\'
}

fn quote_byte(out: &mut [u8], at: usize, byte: u8) -> usize
    ensures { Puts out.old at (quoted_byte byte) result out.new }
{
    if is_plain(byte) {
        return put_byte(out, at, byte);
    }
    let next = put(out, at, b"\\x");
    put_hex(out, next, &[byte])
}

pub fn quote(out: &mut [u8], at: usize, text: &[u8]) -> usize
    ensures { Puts out.old at (quoted text.now) result out.new }
{
    let shown = &text[..text.len().min(SHOWN)];
    let mut next = at.min(out.len());
    for byte in shown {
        next = quote_byte(out, next, *byte);
    }
    if shown.len() < text.len() {
        return put(out, next, b"...");
    }
    next
}
