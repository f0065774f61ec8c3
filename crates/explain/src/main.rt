// Carries out frames, or steps as lines, and says of each in words what it did. Holds what the lines expect against what came.
#![tactic(auto)]

use console::{Asked, Streams};
use octets::put;
use run::Tally;
use script::TooLong;
use std::io::{Read, Write};
use std::rt::{Env, Files};

mod checking;
mod run;
mod unit;

fn main(rt: HostRuntime) {
    let mut streams = Streams {
        output: rt.stdout(),
        errors: rt.stderr(),
    };
    let frames = console::is(&rt, 1, b"--frames");
    match ask(&rt, &mut streams, 1 + usize::from(frames)) {
        Asked::Input => read(&mut streams, rt.stdin(), frames),
        Asked::File(file) => read(&mut streams, file, frames),
        Asked::Done => {}
    }
}

// The arguments from the first on.
fn ask<R: Env + Files, O: Write, E: Write>(
    rt: &R,
    streams: &mut Streams<O, E>,
    first: usize,
) -> Asked<R::File> {
    console::arguments(
        rt,
        streams,
        b"explain",
        first,
        b"usage: explain [STEPS]\n\
        \x20      explain --frames [FRAMES]\n\
        \x20      explain --help | --version\n\
        \n\
        Carries out steps, or frames, as fetchlog does, and prints a line in words for\n\
        each. STEPS is a file as framewriter reads it, at most 1048576 bytes; FRAMES a\n\
        file as fetchlog reads it, at most 32768 bytes; '-' or none is standard input.\n\
        \n\
        Behind '=' a step may say what is expected of it, as the log prints it:\n\
        \n\
        \x20 F 3 64 1 = 04         the bytes of an accepted fetch\n\
        \x20 F 3 64 1 = ok 1 0     accepted, with these numbers first\n\
        \x20 F 2 0 1 = no 21       refused, with this number\n\
        \n\
        The exit status is always 0. A run that lost nothing, and in which no\n\
        expectation failed, ends on standard error with a line such as\n\
        \n\
        \x20 explain: 9 frames, 9 ok, 0 refused, 2 expectations held, 0 failed\n\
        \n\
        or, without expectations, in 'refused'. So in a script:\n\
        \n\
        \x20 explain STEPS 2> NOTES; tail -n 1 NOTES | grep -qE ' [0-9]+ refused$| 0 failed$'\n",
    )
}

// The input is frames, or a line of it is a step: the command line says so once. (A closure in place of the word would be handed on in the same
// way, which is no plainer.)
fn read<R: Read + Drop, O: Write, E: Write>(
    streams: &mut Streams<O, E>,
    mut from: R,
    frames: bool,
) {
    let mut input = script::room();
    if let Ok(n) = console::read_whole(&mut streams.errors, b"explain", &mut from, &mut input) {
        run_all(streams, &input[..n], frames);
    }
}

fn run_all<O: Write, E: Write>(streams: &mut Streams<O, E>, input: &[u8], frames: bool) {
    if frames {
        run_frames(streams, input);
    } else {
        run_steps(streams, input);
    }
}

// Steps that are given for frames.
const STEPS: &[u8] = b"explain: the input looks like steps; leave --frames out\n";

fn run_frames<O: Write, E: Write>(streams: &mut Streams<O, E>, input: &[u8]) {
    if input.len() > journal::MOST {
        console::say_if_text(&mut streams.errors, input, STEPS);
        console::say_text(
            &mut streams.errors,
            b"explain: the input is above 32768 bytes, nothing is run\n",
        );
        return;
    }
    let tally = run::explain_frames(streams, input);
    if tally.early {
        console::say_if_text(&mut streams.errors, input, STEPS);
    }
    sum_up(&mut streams.errors, tally);
}

fn run_steps<O: Write, E: Write>(streams: &mut Streams<O, E>, input: &[u8]) {
    match script::judge(&mut streams.errors, b"explain", input) {
        Err(TooLong) => console::say_text(
            &mut streams.errors,
            b"explain: the input is above 1048576 bytes, nothing is run\n",
        ),
        Ok(judged) if 0 < judged.bad => reporting::say_bad(
            &mut streams.errors,
            b"explain",
            input,
            judged.bad,
            b"explain: the input looks like frames; give --frames\n",
            b", nothing is run\n",
        ),
        Ok(_) => {
            let tally = run::explain_steps(streams, input);
            sum_up(&mut streams.errors, tally);
        }
    }
}

// The frames that a call refused.
fn refused(tally: Tally) -> usize {
    tally
        .frames
        .saturating_sub(tally.carried)
        .saturating_sub(usize::from(tally.early))
}

// The last line on standard error.
fn sum_up<E: Write>(errors: &mut E, tally: Tally) {
    let mut note = [0u8; console::NOTE];
    let next = put(&mut note, 0, b"explain: ");
    let next = counting::put_run(
        &mut note,
        next,
        tally.frames,
        tally.carried,
        refused(tally),
        tally.early,
    );
    let next = put_expected(&mut note, next, tally.held, tally.failed);
    let next = counting::put_lost(
        &mut note,
        next,
        b", output lost from line ",
        tally.frames,
        tally.kept,
    );
    let next = put(&mut note, next, b"\n");
    console::say(errors, &note, next);
}

// How many expectations held and failed, if there was one.
fn put_expected(note: &mut [u8], at: usize, held: usize, failed: usize) -> usize {
    if held == 0 && failed == 0 {
        return at;
    }
    let next = put(note, at, b", ");
    let next = counting::put_count(note, next, held, b"expectation");
    let next = put(note, next, b" held, ");
    let next = text::put_decimal(note, next, failed);
    put(note, next, b" failed")
}
