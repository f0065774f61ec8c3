// What a line of steps expects of its frame, held against what the log prints of it.
ghost use Rattle.std.specs.Prelude.{◌≤◌, length};

use crate::unit::put_trimmed;
use octets::put;
use scan::Stop;
use std::io::Write;

// Where in a line of the log the answer begins: behind the number, which has at most 20 digits, the letter, and a blank each.
fn answer_start(logged: &[u8]) -> usize
    ensures { result ≤ length logged.now }
{
    let blank = scan::until(logged, 0, Stop::Blank).min(20);
    (blank + 3).min(logged.len())
}

// Whether the expectation of a step held, if there is one. The line of the log is given without its newline. A failed expectation is
// reported.
pub(crate) fn check<E: Write>(
    errors: &mut E,
    number: usize,
    step: &[u8],
    logged: &[u8],
) -> Option<bool> {
    let span = expect::expected(step);
    let end = span.end.min(step.len());
    let start = span.start.min(end);
    if start == end {
        return None;
    }
    let from = answer_start(logged);
    let held = expect::meets(&step[start..end], &logged[from..]);
    if !held {
        say_failed(errors, number, &step[start..end], &logged[from..]);
    }
    Some(held)
}

fn say_failed<E: Write>(errors: &mut E, number: usize, expected: &[u8], answer: &[u8]) {
    let mut note = [0u8; 2 * console::NOTE];
    let next = put(&mut note, 0, b"explain: line ");
    let next = text::put_decimal(&mut note, next, number);
    let next = put(&mut note, next, b": expected ");
    let next = put_trimmed(&mut note, next, expected);
    let next = put(&mut note, next, b", but ");
    let next = quoting::quote(&mut note, next, answer);
    let next = put(&mut note, next, b"\n");
    console::say(errors, &note, next);
}
