// What a program is asked to do: its one argument, or none.
use crate::naming::open;
use crate::saying::{NOTE, Streams, say, say_failed, say_text, tell, within};
use octets::put;
use quoting::quote;
use std::env::FillError;
use std::io;
use std::io::Write;
use std::rt::{Env, Files};

// The most bytes of a file name.
const NAME: usize = 4095;

// Three things that a program may do next, of which none is an error; an option of one of two inputs would be no plainer.
#[derive(Drop)]
pub enum Asked<F> {
    // to read standard input
    Input,
    // to read this file
    File(F),
    // nothing more: what was asked has been told, or what is wrong has been said
    Done,
}

// Is argument i this word?
pub fn is<R: Env>(rt: &R, i: usize, word: &[u8]) -> bool {
    let mut text = [0u8; NAME];
    match rt.arg(i, &mut text) {
        Ok(n) => &text[..n] == word,
        Err(_) => false,
    }
}

// Is there an argument i?
fn is_given<R: Env>(rt: &R, i: usize) -> bool {
    let mut text = [0u8; 1];
    !matches!(rt.arg(i, &mut text), Err(FillError::NotPresent))
}

// Argument i and those behind it: a file name, or one of the two words that every program knows.
pub fn arguments<R: Env + Files, O: Write, E: Write>(
    rt: &R,
    streams: &mut Streams<O, E>,
    program: &[u8],
    i: usize,
    usage: &[u8],
) -> Asked<R::File> {
    let mut name = [0u8; NAME];
    let n = match rt.arg(i, &mut name) {
        Ok(n) => n,
        Err(FillError::NotPresent) => return Asked::Input,
        Err(FillError::TooLong) => {
            say_wrong(
                &mut streams.errors,
                program,
                b"the file name is too long",
                b"",
            );
            return Asked::Done;
        }
    };
    let name = &name[..n];
    if name == b"--help".as_slice() {
        tell(streams, program, usage);
        return Asked::Done;
    }
    if name == b"--version".as_slice() {
        tell_version(streams, program);
        return Asked::Done;
    }
    if is_given(rt, i.saturating_add(1)) {
        say_wrong(&mut streams.errors, program, b"one file at most", b"");
        say_text(&mut streams.errors, usage);
        return Asked::Done;
    }
    input(rt, &mut streams.errors, program, name, usage)
}

fn tell_version<O: Write, E: Write>(streams: &mut Streams<O, E>, program: &[u8]) {
    let mut text = [0u8; NOTE];
    let next = put(&mut text, 0, program);
    let next = put(&mut text, next, b" 1.0\n");
    let n = within(&text, next);
    tell(streams, program, &text[..n]);
}

fn input<R: Files, E: Write>(
    rt: &R,
    errors: &mut E,
    program: &[u8],
    name: &[u8],
    usage: &[u8],
) -> Asked<R::File> {
    if name == b"-".as_slice() {
        return Asked::Input;
    }
    if is_option(name) {
        say_wrong(errors, program, b"unknown option ", name);
        say_text(errors, usage);
        return Asked::Done;
    }
    match open(rt, name) {
        Ok(file) => Asked::File(file),
        Err(cause) => {
            say_unopened(errors, program, name, cause);
            Asked::Done
        }
    }
}

fn is_option(name: &[u8]) -> bool {
    name.starts_with(b"-")
}

fn say_wrong<E: Write>(errors: &mut E, program: &[u8], what: &[u8], name: &[u8]) {
    let mut note = [0u8; NOTE];
    let next = put(&mut note, 0, program);
    let next = put(&mut note, next, b": ");
    let next = put(&mut note, next, what);
    let next = quote(&mut note, next, name);
    let next = put(&mut note, next, b"\n");
    say(errors, &note, next);
}

fn say_unopened<E: Write>(errors: &mut E, program: &[u8], name: &[u8], cause: io::Error) {
    let mut what = [0u8; NOTE];
    let next = quote(&mut what, 0, name);
    let next = put(&mut what, next, b" cannot be opened");
    let n = within(&what, next);
    say_failed(errors, program, &what[..n], cause);
}
