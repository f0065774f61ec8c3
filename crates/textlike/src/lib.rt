// Does an input look like text? Steps do, and frames do not.
#![tactic(auto)]

ghost use Rattle.std.specs.Prelude.{◌≡◌, get_or};
ghost use Rattle.octets.specs.Lists.{all};
ghost use Rattle.textlike.specs.Texts.{is_text, is_mark, looks_like_text};

// A tab, the end of a line, a printable character of ASCII, or a byte of a character beyond ASCII.
fn is_text(byte: u8) -> bool
    ensures { result ≡ is_text byte }
{
    matches!(byte, b'\t' | b'\n' | b'\r' | b' '..=b'~' | 0x80..)
}

fn is_all_text(bytes: &[u8]) -> bool
    ensures { result ≡ all is_text bytes.now }
{
    bytes.iter().all(|byte| is_text(*byte))
}

// A byte order mark at the front, of UTF-16 or of UTF-8.
fn is_marked(bytes: &[u8]) -> bool
    ensures { result ≡ is_mark (get_or bytes.now 0 0) (get_or bytes.now 1 0) (get_or bytes.now 2 0) }
{
    matches!(
        bytes,
        [0xff, 0xfe, ..] | [0xfe, 0xff, ..] | [0xef, 0xbb, 0xbf, ..]
    )
}

// It starts with a byte order mark, or is text alone.
pub fn looks_like_text(bytes: &[u8]) -> bool
    ensures { result ≡ looks_like_text bytes.now }
{
    is_marked(bytes) || is_all_text(bytes)
}
