// The frame of a line.
ghost use Rattle.std.specs.Prelude.{◌≡◌, length, take};
ghost use Rattle.octets.specs.Lists.{overwrite};
ghost use Rattle.steps.specs.Line.{line_means, line_data};
ghost use Rattle.steps.specs.Frame.{Frames};

use crate::Unframed;
use crate::line::parse;

// How many bytes the frame of a line has, which is made at the front of the output; nothing where the line has no step. The data of the line
// are put to the front of the buffer on the way.
#[tactic(auto, unfolding(crate::specs::Frame::meaning_says, crate::specs::Frame::meaning_output))]
pub fn frame_of(
    line: &[u8],
    buffer: &mut [u8],
    output: &mut [u8],
) -> Result<Option<usize>, Unframed>
    ensures frames { Frames (line_means line.now) buffer.new output.old result output.new }
    ensures bytes { buffer.new ≡ overwrite buffer.old 0 (take (length buffer.old) (line_data line.now)) }
{
    let Some(step) = parse(line, buffer)? else {
        return Ok(None);
    };
    let n = step.given.min(buffer.len());
    let size = frames::write(
        step.kind,
        step.command,
        step.address,
        step.size,
        &buffer[..n],
        output,
    )?;
    Ok(Some(size))
}
