// A command as a whole: whether it is open, and a command that holds nothing.
ghost use Rattle.std.specs.Prelude.{◌≡◌, ◌<◌, length};
ghost use Rattle.state.specs.Limits.{command_limit, command_words};
ghost use Rattle.state.specs.State.{empty, is_open};
ghost use Rattle.state.specs.Words.{command_in, state_of};

use state::CacheState;

pub fn is_open(state: &[u16; CacheState::WORDS], command: usize) -> bool
    requires { command < command_limit }
    ensures { result ≡ is_open (state_of state.now) command }
{
    0 < state[CacheState::COMMAND_WORDS * command]
}

// The command holds nothing, open or closed.
pub fn reset(words: &mut [u16], opened: bool)
    requires { length words.old ≡ command_words }
    ensures { (command_in words.new ≡ empty opened) × (length words.new ≡ command_words) }
{
    words.fill(0);
    words[0] = u16::from(opened);
}
