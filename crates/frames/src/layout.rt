// The head of a frame: five bytes that hold five fields, the first in the most significant bits.
ghost use Rattle.std.specs.Prelude.{◌≡◌, true, [], ◌∷◌, ◌<◌, ◌^◌};
ghost use Rattle.frames.specs.Bits.{bits, pack, unpack, fit};
ghost use Rattle.frames.specs.Layout.{field_widths, byte_widths, fields_of, head_fields};

#[derive(Clone, Copy)]
pub(crate) struct Head {
    // a number, since a frame may hold one that is no kind
    pub kind: usize,
    pub command: usize,
    pub address: usize,
    pub size: usize,
    pub spare: usize,
}

pub(crate) const HEAD: usize = 5;

// How many numbers the bits below a field hold: each has the width of the next field more.
const BELOW_SIZE: usize = 1 << 5;

const BELOW_ADDRESS: usize = BELOW_SIZE << 13;

const BELOW_COMMAND: usize = BELOW_ADDRESS << 16;

const BELOW_KIND: usize = BELOW_COMMAND << 3;
// The same for the bytes.
const BELOW_FOURTH: usize = 1 << 8;

const BELOW_THIRD: usize = BELOW_FOURTH << 8;

const BELOW_SECOND: usize = BELOW_THIRD << 8;

const BELOW_FIRST: usize = BELOW_SECOND << 8;

// The bytes of a head as one number.
fn number(head: &[u8; HEAD]) -> usize
    ensures { result ≡ pack byte_widths head.now }
{
    let first = usize::from(head[0]) * BELOW_FIRST;
    let second = usize::from(head[1]) * BELOW_SECOND;
    let third = usize::from(head[2]) * BELOW_THIRD;
    let fourth = usize::from(head[3]) * BELOW_FOURTH;
    first + second + third + fourth + usize::from(head[4])
}

// The fields that stand in a number.
fn fields(n: usize) -> Head
    ensures { head_fields result ≡ unpack field_widths n }
{
    let below_kind = n % BELOW_KIND;
    let below_command = below_kind % BELOW_COMMAND;
    let below_address = below_command % BELOW_ADDRESS;
    Head {
        kind: n / BELOW_KIND,
        command: below_kind / BELOW_COMMAND,
        address: below_command / BELOW_ADDRESS,
        size: below_address / BELOW_SIZE,
        spare: below_address % BELOW_SIZE,
    }
}

#[tactic(auto, unfolding(crate::specs::Layout::fields_of))]
pub(crate) fn read_head(head: &[u8; HEAD]) -> Head
    ensures { head_fields result ≡ fields_of head.now }
{
    fields(number(head))
}

// The number in which the fields stand, with the spare bits zero.
#[tactic(auto, using(crate::proofs::Heads::fields_below))]
pub(crate) fn packed(kind: usize, command: usize, address: usize, size: usize) -> usize
    requires { fit field_widths (kind ∷ command ∷ address ∷ size ∷ 0 ∷ []) ≡ true }
    ensures { result ≡ pack field_widths (kind ∷ command ∷ address ∷ size ∷ 0 ∷ []) }
{
    kind * BELOW_KIND + command * BELOW_COMMAND + address * BELOW_ADDRESS + size * BELOW_SIZE
}

// The bytes of a number.
pub(crate) fn bytes(n: usize) -> [u8; HEAD]
    requires { n < 2 ^ bits byte_widths }
    ensures { result ≡ unpack byte_widths n }
{
    let below_first = n % BELOW_FIRST;
    let below_second = below_first % BELOW_SECOND;
    let below_third = below_second % BELOW_THIRD;
    [
        (n / BELOW_FIRST) as u8,
        (below_first / BELOW_SECOND) as u8,
        (below_second / BELOW_THIRD) as u8,
        (below_third / BELOW_FOURTH) as u8,
        (below_third % BELOW_FOURTH) as u8,
    ]
}
