// Numbers that stand in a buffer as bytes, the least byte first.
#![tactic(auto)]

ghost use Rattle.std.specs.Prelude.{◌≡◌, ◌≤◌, length};
ghost use Rattle.endian.specs.LittleEndian.{least_first};

// The number that at most eight bytes stand for. The highest comes first, so that each step makes room for one byte below.
pub fn least_first(bytes: &[u8]) -> u64
    requires { length bytes.now ≤ 8 }
    ensures { result ≡ least_first bytes.now }
{
    let mut number = 0;
    for byte in bytes.iter().rev() {
        number = 256 * number + u64::from(*byte);
    }
    number
}
