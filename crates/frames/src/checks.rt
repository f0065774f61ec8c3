// What the table of kinds asks of a frame.
ghost use Rattle.std.specs.Prelude.{◌≡◌};
ghost use Rattle.kinds.specs.Table.{number};
ghost use Rattle.frames.specs.Kinds.{data_size};
ghost use Rattle.frames.specs.Checks.{zero_broken};

use kinds::Kind;

// How many bytes of data follow the head of a frame.
#[tactic(auto, unfolding(crate::specs::Kinds::data_size))]
pub(crate) fn data_size(kind: Kind, size: usize) -> usize
    ensures { result ≡ data_size (number kind) size }
{
    if kind.has_data() { size } else { 0 }
}

// Is a field that must be zero, or a spare bit, not zero?
#[tactic(auto, unfolding(crate::specs::Checks::zero_broken, crate::specs::Checks::not_zero))]
pub(crate) fn zero_broken(
    kind: Kind,
    command: usize,
    address: usize,
    size: usize,
    spare: usize,
) -> bool
    ensures { result ≡ zero_broken (number kind) command address size spare }
{
    (kind.command_zero() && command != 0)
        || (kind.span_zero() && (address != 0 || size != 0))
        || spare != 0
}
