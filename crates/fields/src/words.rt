// One field.
ghost use Rattle.std.specs.Prelude.{◌≡◌, ◌≤◌, length, take};
ghost use Rattle.octets.specs.Lists.{overwrite};
ghost use Rattle.fields.specs.Fields.{absent, number_of, number_field, is_dash, data_fault, data_field, data_bytes, end_fault};

use crate::{Fault, Field};
use scan::{Stop, decode, has_word, until, value};

#[tactic(auto, unfolding(crate::specs::Fields::number_of))]
fn number(word: &[u8], next: usize) -> Field
    ensures { result ≡ number_of word.now next }
{
    let value = if word.is_empty() {
        Err(Fault::FieldMissing)
    } else if until(word, 0, Stop::NotDecimal) < word.len() {
        Err(Fault::NotANumber)
    } else {
        Ok(value(word))
    };
    Field { value, next }
}

// A field that is not wanted: nothing is read, and its number is 0, as the definition `absent` has it.
fn absent(at: usize) -> Field
    ensures { result ≡ absent at }
{
    Field {
        value: Ok(0),
        next: at,
    }
}

// The number that stands next, if one is wanted.
#[tactic(auto, using(scan::proofs::Scanning::word_end_most), unfolding(crate::specs::Fields::number_field, crate::specs::Fields::number_of))]
pub(crate) fn number_field(text: &[u8], at: usize, wanted: bool) -> Field
    requires { at ≤ length text.now }
    ensures field { result ≡ number_field text.now at wanted }
    ensures inside { result.next ≤ length text.now }
{
    if !wanted {
        return absent(at);
    }
    let from = until(text, at, Stop::Word);
    let to = until(text, from, Stop::Blank);
    number(&text[from..to], to)
}

// The data that stand next, if data are wanted: how many bytes they are, of which there may be none. They are put to the front of the buffer.
#[tactic(auto, using(scan::proofs::Scanning::word_end_most), unfolding(crate::specs::Fields::data_field, crate::specs::Fields::data_bytes))]
pub(crate) fn data_field(text: &[u8], at: usize, wanted: bool, buffer: &mut [u8]) -> Field
    requires { at ≤ length text.now }
    ensures field { result ≡ data_field text.now at wanted }
    ensures bytes { buffer.new ≡ overwrite buffer.old 0 (take (length buffer.old) (data_bytes text.now at wanted)) }
{
    if !wanted {
        return absent(at);
    }
    let from = until(text, at, Stop::Word);
    let to = until(text, from, Stop::Blank);
    let word = &text[from..to];
    decode(word, buffer);
    Field {
        value: data_fault(word).map(|()| word.len() / 2),
        next: to,
    }
}

// Nothing more may stand in the text.
#[tactic(auto, unfolding(crate::specs::Fields::end_fault))]
pub(crate) fn end_fault(text: &[u8], at: usize) -> Result<(), Fault>
    ensures { result ≡ end_fault text.now at }
{
    if has_word(text, at) {
        return Err(Fault::FieldTooMany);
    }
    Ok(())
}

// What is wrong with a word of data. A dash stands for no data.
#[tactic(auto, unfolding(crate::specs::Fields::data_fault))]
fn data_fault(word: &[u8]) -> Result<(), Fault>
    ensures { result ≡ data_fault word.now }
{
    if is_dash(word) {
        return Ok(());
    }
    if until(word, 0, Stop::NotHex) < word.len() {
        return Err(Fault::NotHexadecimal);
    }
    if word.len() % 2 == 1 {
        return Err(Fault::OddDigits);
    }
    Ok(())
}

fn is_dash(word: &[u8]) -> bool
    ensures { result ≡ is_dash word.now }
{
    matches!(word, [b'-'])
}
