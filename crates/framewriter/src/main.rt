// Reads steps, one a line, and writes their frames. All lines are judged first: if one of them has no frame, nothing is written.
#![tactic(auto)]

use console::{Asked, Streams};
use octets::put;
use script::{Judged, Lines, TooLong};
use state::CacheState;
use std::io::{Read, Write};
use std::rt::{Env, Files};

// The most bytes of a journal that fetchlog takes.
const JOURNAL: usize = 32768;

fn main(rt: HostRuntime) {
    let mut streams = Streams {
        output: rt.stdout(),
        errors: rt.stderr(),
    };
    match ask(&rt, &mut streams) {
        Asked::Input => run(&mut streams, rt.stdin()),
        Asked::File(file) => run(&mut streams, file),
        Asked::Done => {}
    }
}

fn ask<R: Env + Files, O: Write, E: Write>(rt: &R, streams: &mut Streams<O, E>) -> Asked<R::File> {
    console::arguments(
        rt,
        streams,
        b"framewriter",
        1,
        b"usage: framewriter [STEPS] > FRAMES\n\
        \x20      framewriter --help | --version\n\
        \n\
        STEPS is a file of at most 1048576 bytes; '-' or none is standard input.\n\
        A line is one step, or blank:\n\
        \n\
        \x20 B COMMAND                  begin\n\
        \x20 F COMMAND ADDRESS LENGTH   fetch\n\
        \x20 E COMMAND                  end\n\
        \x20 H ADDRESS [DATA]           host write\n\
        \x20 W COMMAND ADDRESS [DATA]   own write\n\
        \n\
        Numbers are decimal. DATA are hexadecimal digits, two a byte, or '-'.\n\
        '=' and what is expected may follow, which 'explain' checks. '#' starts a\n\
        comment. If a line is bad, every bad line is told and nothing is written.\n\
        \n\
        The exit status is always 0. A run that wrote all frames ends, on standard\n\
        error, with a line such as\n\
        \n\
        \x20 framewriter: 9 frames, 55 bytes\n\
        \n\
        and no other run ends in a number and 'bytes'. So in a script:\n\
        \n\
        \x20 framewriter STEPS > FRAMES 2> NOTES; tail -n 1 NOTES | grep -qE ' [0-9]+ bytes$'\n",
    )
}

fn run<R: Read + Drop, O: Write, E: Write>(streams: &mut Streams<O, E>, mut from: R) {
    let mut input = script::room();
    if let Ok(n) = console::read_whole(&mut streams.errors, b"framewriter", &mut from, &mut input) {
        write(streams, &input[..n]);
    }
}

fn write<O: Write, E: Write>(streams: &mut Streams<O, E>, input: &[u8]) {
    match script::judge(&mut streams.errors, b"framewriter", input) {
        Err(TooLong) => console::say_text(
            &mut streams.errors,
            b"framewriter: the input is above 1048576 bytes, nothing is written\n",
        ),
        Ok(judged) if 0 < judged.bad => reporting::say_bad(
            &mut streams.errors,
            b"framewriter",
            input,
            judged.bad,
            b"framewriter: the input looks like frames; fetchlog runs frames\n",
            b", nothing is written\n",
        ),
        Ok(judged) => {
            let kept = write_frames(streams, input);
            sum_up(&mut streams.errors, judged, kept);
        }
    }
}

// Whether the frame of a line was written, if it has one. An empty line costs no call.
fn write_frame<O: Write, E: Write>(
    streams: &mut Streams<O, E>,
    line: &[u8],
    buffer: &mut [u8],
    frame: &mut [u8],
) -> Option<bool> {
    if line.is_empty() {
        return None;
    }
    match steps::frame_of(line, buffer, frame) {
        Ok(Some(size)) => Some(console::tell_if(streams, true, b"framewriter", frame, size)),
        _ => None,
    }
}

// Writes the frames of the lines, up to the first that cannot be written. Tells how many were.
fn write_frames<O: Write, E: Write>(streams: &mut Streams<O, E>, input: &[u8]) -> usize {
    let mut buffer = [0u8; CacheState::TRANSFER];
    let mut frame = [0u8; script::FRAME];
    let mut kept = 0;
    for line in Lines::of(input) {
        match write_frame(streams, line, &mut buffer, &mut frame) {
            Some(true) => kept += 1,
            Some(false) => break,
            None => {}
        }
    }
    kept
}

// The last line on standard error, and before it a word on a journal that is too long.
fn sum_up<E: Write>(errors: &mut E, judged: Judged, kept: usize) {
    if JOURNAL < judged.bytes {
        console::say_text(
            errors,
            b"framewriter: more than 32768 bytes, which fetchlog refuses\n",
        );
    }
    let frames = judged.frames;
    let mut note = [0u8; console::NOTE];
    let next = put(&mut note, 0, b"framewriter: ");
    let next = counting::put_count(&mut note, next, frames, b"frame");
    let next = put(&mut note, next, b", ");
    let next = counting::put_count(&mut note, next, judged.bytes, b"byte");
    let next = counting::put_lost(&mut note, next, b", lost from frame ", frames, kept);
    let next = put(&mut note, next, b"\n");
    console::say(errors, &note, next);
}
