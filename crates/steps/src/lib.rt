// Steps in readable form, one a line: what a line says, and the frame that it stands for.
#![tactic(auto)]

ghost use Rattle.std.specs.Prelude.{◌≡◌};
ghost use Rattle.steps.specs.declared.Unframed.TheVariants.{Bad, Refused};

use fields::Fault;
use state::Refusal;

mod frame;
mod line;

pub use frame::frame_of;
pub use line::parse;

// Why a line has no frame: it has a fault, or the writer of frames refuses its step.
#[derive(Clone, Copy)]
pub enum Unframed {
    Bad(Fault),
    Refused(Refusal),
}

impl From<Fault> for Unframed {
    ghost from_gives = { λ fault made. made ≡ Bad fault };

    fn from(fault: Fault) -> Unframed {
        Unframed::Bad(fault)
    }
}

impl From<Refusal> for Unframed {
    ghost from_gives = { λ why made. made ≡ Refused why };

    fn from(why: Refusal) -> Unframed {
        Unframed::Refused(why)
    }
}
