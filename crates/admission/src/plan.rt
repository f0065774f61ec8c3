// What a span of a byte or more would bring, found by one search of the command's words, which are read. 23 and 24 are judged by it.
ghost use Rattle.std.specs.Prelude.{◌≡◌, true, ◌+◌, ◌<◌, ◌≤◌, length};
ghost use Rattle.state.specs.Limits.{transfer_limit, window_limit, command_words};
ghost use Rattle.state.specs.State.{command_holds};
ghost use Rattle.state.specs.Words.{command_in};
ghost use Rattle.admission.specs.Plan.{Plans};

use join::search::search;
use state::{CacheState, Meeting, Refusal};
use words::entries::{held_from, used};

// How a span meets the records, how many of its bytes are fresh, where its first byte will stand among the packed bytes, how many bytes are held
// behind it, and how many records the search looked at.
#[derive(Clone, Copy)]
pub struct Finding {
    pub m: Meeting,
    pub fresh: usize,
    pub place: usize,
    pub behind: usize,
    pub looked: usize,
}

pub fn planned(words: &[u16], address: usize, size: usize) -> Result<Finding, Refusal>
    requires { (length words.now ≡ command_words) × (command_holds (command_in words.now) ≡ true) × (0 < size) × (size ≤ transfer_limit) × (address + size ≤ window_limit) }
    ensures { Plans (command_in words.now) address size result }
{
    let searched = search(words, address, address + size);
    let m = searched.met;
    let fresh = m.high.saturating_sub(m.low).saturating_sub(m.held);
    let behind = held_from(words, m.last);
    if CacheState::HELD < m.below + m.held + behind + fresh {
        return Err(Refusal::TooManyBytes);
    }
    if CacheState::RECORDS < m.first + 1 + used(words).saturating_sub(m.last) {
        return Err(Refusal::TooManyRecords);
    }
    let place = m.below + address.saturating_sub(m.low).min(CacheState::WINDOW);
    Ok(Finding {
        m,
        fresh,
        place,
        behind,
        looked: searched.looked,
    })
}
