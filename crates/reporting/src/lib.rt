// What is said on standard error of lines that have no frame.
#![tactic(auto)]

use octets::put;
use reason::{put_fault, put_refusal};
use std::io::Write;
use steps::Unframed;

mod reason;

// Where in a message the reason stands: behind the program and the number of the line.
fn put_place(note: &mut [u8], program: &[u8], number: usize) -> usize {
    let next = put(note, 0, program);
    let next = put(note, next, b": line ");
    let next = text::put_decimal(note, next, number);
    put(note, next, b": ")
}

fn say_line<E: Write>(errors: &mut E, note: &mut [u8], at: usize, line: &[u8]) {
    let next = put(note, at, b": ");
    let next = quoting::quote(note, next, line);
    let next = put(note, next, b"\n");
    console::say(errors, note, next);
}

// Why a line has no frame is said, and nothing of any other.
pub fn report<E: Write>(
    errors: &mut E,
    program: &[u8],
    number: usize,
    line: &[u8],
    framed: Result<Option<usize>, Unframed>,
) {
    let Err(why) = framed else {
        return;
    };
    let mut note = [0u8; console::NOTE];
    let next = put_place(&mut note, program, number);
    let next = match why {
        Unframed::Bad(fault) => put_fault(&mut note, next, fault),
        Unframed::Refused(refusal) => put_refusal(&mut note, next, refusal),
    };
    say_line(errors, &mut note, next, line);
}

// What is said last where lines are bad: how many, and what is not done. Before it stands a hint, where the input is no text.
pub fn say_bad<E: Write>(
    errors: &mut E,
    program: &[u8],
    input: &[u8],
    bad: usize,
    hint: &[u8],
    undone: &[u8],
) {
    if !textlike::looks_like_text(input) {
        console::say_text(errors, hint);
    }
    let mut note = [0u8; console::NOTE];
    let next = put(&mut note, 0, program);
    let next = put(&mut note, next, b": ");
    let next = counting::put_count(&mut note, next, bad, b"bad line");
    let next = put(&mut note, next, undone);
    console::say(errors, &note, next);
}
