// The status of a reply.
ghost use Rattle.std.specs.Prelude.{◌≡◌};
ghost use Rattle.state.specs.Refusals.{number};

use state::Refusal;

pub(crate) const OK: u32 = 0;

pub(crate) fn status(why: Refusal) -> u32
    ensures { result ≡ number why }
{
    u32::from(why.number())
}
