// Reads a journal of frames, and prints its log: a line for each frame, up to the first that is unreadable.
#![tactic(auto)]

use console::{Asked, Streams};
use octets::put;
use printing::{LINE, Printed};
use state::CacheState;
use std::io::{Read, Write};
use std::rt::{Env, Files};

mod printing;

// One byte more than a journal may have, which tells that there are more.
const INPUT: usize = journal::MOST + 1;

// The window of the log program.
const WINDOW: usize = 16384;

// Steps that are given for frames.
const STEPS: &[u8] = b"fetchlog: the input looks like steps; framewriter makes frames of steps\n";

fn main(rt: HostRuntime) {
    let mut streams = Streams {
        output: rt.stdout(),
        errors: rt.stderr(),
    };
    match ask(&rt, &mut streams) {
        Asked::Input => run(&mut streams, rt.stdin()),
        Asked::File(file) => run(&mut streams, file),
        Asked::Done => {}
    }
}

fn ask<R: Env + Files, O: Write, E: Write>(rt: &R, streams: &mut Streams<O, E>) -> Asked<R::File> {
    console::arguments(
        rt,
        streams,
        b"fetchlog",
        1,
        b"usage: fetchlog [FRAMES] > LOG\n\
        \x20      fetchlog --help | --version\n\
        \n\
        FRAMES is a file of step frames one behind the other, at most 32768 bytes;\n\
        '-' or none is standard input. LOG has a line for each frame, up to the first\n\
        that cannot be read.\n\
        \n\
        The exit status is always 0. A run that read its input and lost nothing ends,\n\
        on standard error, with a line such as\n\
        \n\
        \x20 fetchlog: 9 frames, 9 ok, 0 refused\n\
        \n\
        and no other run ends in a number and 'refused'. So in a script:\n\
        \n\
        \x20 fetchlog FRAMES > LOG 2> NOTES; tail -n 1 NOTES | grep -qE ' [0-9]+ refused$'\n",
    )
}

fn run<R: Read + Drop, O: Write, E: Write>(streams: &mut Streams<O, E>, mut from: R) {
    let mut input = [0u8; INPUT];
    let reading = console::read_whole(&mut streams.errors, b"fetchlog", &mut from, &mut input);
    if let Ok(n) = reading {
        run_all(streams, &input[..n]);
    }
}

fn run_all<O: Write, E: Write>(streams: &mut Streams<O, E>, input: &[u8]) {
    if input.len() > journal::MOST {
        refuse(streams, input);
    } else {
        print(streams, input);
    }
}

// What document 01 (the agreed scope; docs/RULES.md has its rules) prints for an input that is too long.
fn refuse<O: Write, E: Write>(streams: &mut Streams<O, E>, input: &[u8]) {
    console::tell(streams, b"fetchlog", b"input too long\n");
    console::say_if_text(&mut streams.errors, input, STEPS);
    console::say_text(
        &mut streams.errors,
        b"fetchlog: the input is above 32768 bytes, no frame is run\n",
    );
}

fn print<O: Write, E: Write>(streams: &mut Streams<O, E>, input: &[u8]) {
    let mut state = CacheState::fresh();
    let mut store = [0u8; CacheState::STORE];
    let mut window = [0u8; WINDOW];
    let mut destination = [0u8; CacheState::TRANSFER];
    let mut line = [0u8; LINE];
    let printed = printing::print_log(
        streams,
        input,
        &mut state.words,
        &mut store,
        &mut window,
        &mut destination,
        &mut line,
    );
    if printed.early {
        console::say_if_text(&mut streams.errors, input, STEPS);
    }
    sum_up(&mut streams.errors, printed);
}

// The last line on standard error.
fn sum_up<E: Write>(errors: &mut E, printed: Printed) {
    let frames = printed.frames;
    let kept = printed.kept;
    let mut note = [0u8; console::NOTE];
    let next = put(&mut note, 0, b"fetchlog: ");
    let next = counting::put_run(
        &mut note,
        next,
        frames,
        printed.carried,
        printed.refused,
        printed.early,
    );
    let next = counting::put_lost(&mut note, next, b", log lost from line ", frames, kept);
    let next = put(&mut note, next, b"\n");
    console::say(errors, &note, next);
}
