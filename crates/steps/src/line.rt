// A whole line: its comment is left out, and what is expected; the first word is the letter of a kind, and the fields follow that the
// table gives the kind. A line with no more than blanks and a comment has no step.
ghost use Rattle.std.specs.Prelude.{◌≡◌, length, take};
ghost use Rattle.octets.specs.Lists.{overwrite};
ghost use Rattle.steps.specs.Line.{kind_for, kind_named, step_means, step_data};
ghost use Rattle.steps.specs.Line.{expecting, step_of, text_means, is_marked, line_means, line_data};

use fields::{Fault, Step};
use kinds::Kind;
use scan::{Stop, has_word, starts, until};

// The kind of a letter.
#[tactic(auto, unfolding(crate::specs::Line::kind_for))]
fn kind_for(letter: u8) -> Option<Kind>
    ensures { result ≡ kind_for letter }
{
    for kind in Kind::ALL {
        if kind.letter() == letter {
            return Some(kind);
        }
    }
    None
}

#[tactic(auto, unfolding(crate::specs::Line::kind_named))]
fn kind_named(word: &[u8]) -> Option<Kind>
    ensures { result ≡ kind_named word.now }
{
    match word {
        [letter] => kind_for(*letter),
        _ => None,
    }
}

// What the part of a line before `=` and the comment says. Its data are put to the front of the buffer.
#[tactic(auto, unfolding(crate::specs::Line::step_means, crate::specs::Line::step_data))]
fn step_meaning(text: &[u8], buffer: &mut [u8]) -> Result<Option<Step>, Fault>
    ensures meaning { result ≡ step_means text.now }
    ensures bytes { buffer.new ≡ overwrite buffer.old 0 (take (length buffer.old) (step_data text.now)) }
{
    let from = until(text, 0, Stop::Word);
    if text.len() <= from {
        return Ok(None);
    }
    let to = until(text, from, Stop::Blank);
    let kind = kind_named(&text[from..to]).ok_or(Fault::UnknownLetter)?;
    let step = fields::meaning_of(&text[to..], kind.number(), buffer)?;
    Ok(Some(step))
}

// What a step says that `=` stands behind, with something behind that or not.
fn expecting(something: bool, meaning: Result<Option<Step>, Fault>) -> Result<Option<Step>, Fault>
    ensures { result ≡ expecting something meaning }
{
    let step = meaning?.ok_or(Fault::NoStep)?;
    if !something {
        return Err(Fault::NothingExpected);
    }
    Ok(Some(step))
}

// What the part of a line before the comment says. Its data are put to the front of the buffer.
#[tactic(auto, unfolding(crate::specs::Line::text_means))]
fn text_meaning(text: &[u8], buffer: &mut [u8]) -> Result<Option<Step>, Fault>
    ensures meaning { result ≡ text_means text.now }
    ensures bytes { buffer.new ≡ overwrite buffer.old 0 (take (length buffer.old) (step_data (step_of text.now))) }
{
    let cut = until(text, 0, Stop::Equals);
    let meaning = step_meaning(&text[..cut], buffer);
    if text.len() <= cut {
        return meaning;
    }
    expecting(has_word(text, cut + 1), meaning)
}

// Does a byte order mark stand before the line?
#[tactic(auto, unfolding(crate::specs::Line::is_marked))]
fn is_marked(line: &[u8]) -> bool
    ensures { result ≡ is_marked line.now }
{
    starts(b"\xef\xbb\xbf", line) || starts(b"\xff\xfe", line) || starts(b"\xfe\xff", line)
}

// What a line says. Its data are put to the front of the buffer.
#[tactic(auto, unfolding(crate::specs::Line::line_means, crate::specs::Line::line_data))]
pub fn parse(line: &[u8], buffer: &mut [u8]) -> Result<Option<Step>, Fault>
    ensures meaning { result ≡ line_means line.now }
    ensures bytes { buffer.new ≡ overwrite buffer.old 0 (take (length buffer.old) (line_data line.now)) }
{
    if is_marked(line) {
        return Err(Fault::ByteOrderMark);
    }
    let end = until(line, 0, Stop::Comment);
    text_meaning(&line[..end], buffer)
}
