// The replies of the reader and the writer of frames.
ghost use Rattle.std.specs.Prelude.{◌≡◌};
ghost use Rattle.kinds.specs.Table.{number};
ghost use Rattle.frames.specs.Read.{read_reply};
ghost use Rattle.frames.specs.Write.{write_reply};
ghost use Rattle.replies.specs.Replies.{step_of, framed_of};

use crate::status::{OK, status};
use frames::{Parsed, Step};
use kinds::Kind;
use state::Refusal;

// The numbers of a step, and how many bytes its frame took up.
#[repr(C)]
#[derive(Drop)]
pub struct FrameStep {
    pub status: u32,
    pub kind: usize,
    pub command: usize,
    pub address: usize,
    pub size: usize,
    pub taken: usize,
}

// How many bytes the frame has.
#[repr(C)]
#[derive(Drop)]
pub struct Framed {
    pub status: u32,
    pub size: usize,
}

fn numbered(kind: Kind, command: usize, address: usize, size: usize, taken: usize) -> FrameStep
    ensures { result ≡ record { status = 0; kind = number kind; command = command; address = address; size = size; taken = taken } }
{
    FrameStep {
        status: OK,
        kind: kind.number(),
        command,
        address,
        size,
        taken,
    }
}

fn step_reply(parsed: Parsed) -> FrameStep
    ensures { result ≡ step_of (read_reply (Ok parsed)) }
{
    let taken = parsed.consumed;
    match parsed.step {
        Step::Begin { command } => numbered(Kind::Begin, command, 0, 0, taken),
        Step::Fetch {
            command,
            address,
            size,
        } => numbered(Kind::Fetch, command, address, size, taken),
        Step::End { command } => numbered(Kind::End, command, 0, 0, taken),
        Step::HostWrite { address, size } => numbered(Kind::HostWrite, 0, address, size, taken),
        Step::OwnWrite {
            command,
            address,
            size,
        } => numbered(Kind::OwnWrite, command, address, size, taken),
    }
}

pub fn read_reply(answer: Result<Parsed, Refusal>) -> FrameStep
    ensures { result ≡ step_of (read_reply answer) }
{
    match answer {
        Ok(parsed) => step_reply(parsed),
        Err(why) => FrameStep {
            status: status(why),
            kind: 0,
            command: 0,
            address: 0,
            size: 0,
            taken: 0,
        },
    }
}

pub fn frame_reply(answer: Result<usize, Refusal>) -> Framed
    ensures { result ≡ framed_of (write_reply answer) }
{
    match answer {
        Ok(size) => Framed { status: OK, size },
        Err(why) => Framed {
            status: status(why),
            size: 0,
        },
    }
}
