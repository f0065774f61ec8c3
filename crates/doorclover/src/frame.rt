// Step frames.
ghost use Rattle.std.specs.Prelude.{◌≡◌, length};
ghost use Rattle.frames.specs.Read.{read_says};
ghost use Rattle.frames.specs.Write.{write_says, write_output};
ghost use Rattle.replies.specs.Replies.{step_of, framed_of};

use replies::{FrameStep, Framed, frame_reply, read_reply};

#[unsafe(no_mangle)]
pub extern "C" fn doorclover_frame_read(frame: &[u8]) -> FrameStep
    ensures { result ≡ step_of (read_says frame.now) }
{
    read_reply(frames::read(frame))
}

#[unsafe(no_mangle)]
pub extern "C" fn doorclover_frame_write(
    output: &mut [u8],
    kind: usize,
    command: usize,
    address: usize,
    size: usize,
    bytes: &[u8],
) -> Framed
    ensures reply { result ≡ framed_of (write_says kind command address size (length bytes.now) (length output.old)) }
    ensures output { output.new ≡ write_output kind command address size bytes.now output.old }
{
    frame_reply(frames::write(kind, command, address, size, bytes, output))
}
