// One line of the log, put into a lent buffer.
ghost use Rattle.std.specs.Prelude.{◌++◌, map, take};
ghost use Rattle.state.specs.Verdict.{without_looked};
ghost use Rattle.octets.specs.Text.{ascii, Puts};
ghost use Rattle.text.specs.Decimal.{decimal};
ghost use Rattle.loglines.specs.Line.{answer_reply, delivered_fields, answer_fields, told, spaced, line_of, too_long};

use crate::answer::Numbers;
use octets::put;
use state::Refusal;
use text::{put_byte, put_decimal, put_hex};

const BLANK: u8 = b' ';

const NEWLINE: u8 = b'\n';

const FETCH: u8 = b'F';

// The line of a frame. What was delivered is shown after the numbers of a fetch, and nowhere else.
pub fn put_line(
    out: &mut [u8],
    at: usize,
    number: usize,
    letter: u8,
    answer: Result<Numbers, Refusal>,
    delivered: &[u8],
) -> usize
    ensures { Puts out.old at (line_of number letter (answer_reply answer) delivered.now) result out.new }
{
    let next = put_decimal(out, at, number);
    let next = put_byte(out, next, BLANK);
    let next = put_byte(out, next, letter);
    let next = put_answer(out, next, letter, answer, delivered);
    put_byte(out, next, NEWLINE)
}

// The line that stands alone where the input is too long.
pub fn put_too_long(out: &mut [u8], at: usize) -> usize
    ensures { Puts out.old at too_long result out.new }
{
    put(out, at, b"input too long\n")
}

// `no` and the number of a refusal; or `ok`, the numbers of a reply and what was delivered.
fn put_answer(
    out: &mut [u8],
    at: usize,
    letter: u8,
    answer: Result<Numbers, Refusal>,
    delivered: &[u8],
) -> usize
    ensures { Puts out.old at (spaced (answer_fields letter (without_looked (answer_reply answer)) delivered.now)) result out.new }
{
    match answer {
        Ok(numbers) => {
            let next = put_word(out, at, b"ok");
            let next = put_numbers(out, next, numbers);
            put_delivered(out, next, letter, delivered)
        }
        Err(refusal) => {
            let next = put_word(out, at, b"no");
            put_number(out, next, usize::from(refusal.number()))
        }
    }
}

// The numbers of a reply, if there are any, but for that of the records looked at.
fn put_numbers(out: &mut [u8], at: usize, numbers: Numbers) -> usize
    ensures { Puts out.old at (spaced (map decimal (take 2 (told numbers)))) result out.new }
{
    match numbers {
        Numbers::Nothing => put(out, at, b""),
        Numbers::One(n) => put_number(out, at, n),
        Numbers::Two(m, n) => put_two(out, at, m, n),
        Numbers::Fetched(counts) => put_two(out, at, counts.fresh, counts.replayed),
    }
}

fn put_two(out: &mut [u8], at: usize, m: usize, n: usize) -> usize
    ensures { Puts out.old at (ascii " " ++ decimal m ++ (ascii " " ++ decimal n)) result out.new }
{
    let next = put_number(out, at, m);
    put_number(out, next, n)
}

// One field with the blank before it: a word, a number, or what a fetch delivered.
fn put_word(out: &mut [u8], at: usize, word: &[u8]) -> usize
    ensures { Puts out.old at (ascii " " ++ word.now) result out.new }
{
    let next = put_byte(out, at, BLANK);
    put(out, next, word)
}

fn put_number(out: &mut [u8], at: usize, n: usize) -> usize
    ensures { Puts out.old at (ascii " " ++ decimal n) result out.new }
{
    let next = put_byte(out, at, BLANK);
    put_decimal(out, next, n)
}

fn put_delivered(out: &mut [u8], at: usize, letter: u8, delivered: &[u8]) -> usize
    ensures { Puts out.old at (spaced (delivered_fields letter delivered.now)) result out.new }
{
    if letter != FETCH {
        return put(out, at, b"");
    }
    if delivered.is_empty() {
        return put_word(out, at, b"-");
    }
    let next = put_byte(out, at, BLANK);
    put_hex(out, next, delivered)
}
