// Classes of bytes.
ghost use Rattle.std.specs.Prelude.{◌≡◌, ◌<◌, MatchOption};
ghost use Rattle.scan.specs.Scan.{is_blank, hex_value, is_hex, stops};

use crate::Stop;

pub(crate) fn stops(stop: Stop, byte: u8) -> bool
    ensures { result ≡ stops stop byte }
{
    match stop {
        Stop::LineEnd => byte == b'\n',
        Stop::Comment => byte == b'#',
        Stop::Equals => byte == b'=',
        Stop::Word => !is_blank(byte),
        Stop::Blank => is_blank(byte),
        Stop::NotDecimal => !byte.is_ascii_digit(),
        Stop::NotHex => !is_hex(byte),
    }
}

fn is_blank(byte: u8) -> bool
    ensures { result ≡ is_blank byte }
{
    matches!(byte, b' ' | b'\t' | b'\r')
}

fn is_hex(byte: u8) -> bool
    ensures { result ≡ is_hex byte }
{
    hex_value(byte).is_some()
}

// The value of a digit of either case.
#[tactic(auto, unfolding(crate::specs::Scan::hex_value))]
pub(crate) fn hex_value(byte: u8) -> Option<u8>
    ensures { MatchOption result (hex_value byte ≡ 16) (λ value. (value ≡ hex_value byte) × (value < 16)) }
{
    match byte {
        b'0'..=b'9' => Some(byte - b'0'),
        b'A'..=b'F' => Some(byte - b'A' + 10),
        b'a'..=b'f' => Some(byte - b'a' + 10),
        _ => None,
    }
}
