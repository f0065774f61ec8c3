// End: an open command is closed, and the whole map is cleared.
ghost use Rattle.std.specs.Prelude.{◌≡◌};
ghost use Rattle.state.specs.Answers.{end_reply};
ghost use Rattle.bytemap.specs.Map.{map_of};
ghost use Rattle.bytemap.specs.End.{end_says, Ends};

use crate::ByteMap;
use crate::holds::whole;
use crate::reset::reset;
use state::{EndCounts, Refusal};

// The half that judges: the first check that applies is given.
#[tactic(auto, unfolding(bytemap::specs::End::end_says, state::specs::Verdict::verdict))]
fn judge(
    flag: u64,
    words: &[u64; ByteMap::WORDS],
    values: &[u8; ByteMap::ADDRESSES],
) -> Result<EndCounts, Refusal>
    ensures { end_reply result ≡ end_says (map_of flag words.now values.now) }
{
    let runs = whole(flag, words, values)?;
    if flag == 0 {
        return Err(Refusal::CommandNotOpen);
    }
    Ok(EndCounts {
        records: runs,
        bytes: bits::ones(words),
    })
}

pub fn end(
    flag: &mut u64,
    words: &mut [u64; ByteMap::WORDS],
    values: &mut [u8; ByteMap::ADDRESSES],
) -> Result<EndCounts, Refusal>
    ensures { Ends (map_of flag.old words.old values.old) result (map_of flag.new words.new values.new) }
{
    let counts = judge(*flag, words, values)?;
    reset(flag, words, values, 0);
    Ok(counts)
}
