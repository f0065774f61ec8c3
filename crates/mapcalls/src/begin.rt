// Begin: a closed command is opened, and the whole map is cleared.
ghost use Rattle.std.specs.Prelude.{◌≡◌};
ghost use Rattle.state.specs.Answers.{begin_reply};
ghost use Rattle.bytemap.specs.Map.{map_of};
ghost use Rattle.bytemap.specs.Begin.{begin_says, Begins};

use crate::ByteMap;
use crate::holds::whole;
use crate::reset::reset;
use state::Refusal;

// The half that judges: the first check that applies is given.
#[tactic(auto, unfolding(bytemap::specs::Begin::begin_says, state::specs::Verdict::verdict))]
fn judge(
    flag: u64,
    words: &[u64; ByteMap::WORDS],
    values: &[u8; ByteMap::ADDRESSES],
) -> Result<(), Refusal>
    ensures { begin_reply result ≡ begin_says (map_of flag words.now values.now) }
{
    whole(flag, words, values)?;
    if flag != 0 {
        return Err(Refusal::CommandAlreadyOpen);
    }
    Ok(())
}

pub fn begin(
    flag: &mut u64,
    words: &mut [u64; ByteMap::WORDS],
    values: &mut [u8; ByteMap::ADDRESSES],
) -> Result<(), Refusal>
    ensures { Begins (map_of flag.old words.old values.old) result (map_of flag.new words.new values.new) }
{
    judge(*flag, words, values)?;
    reset(flag, words, values, 1);
    Ok(())
}
