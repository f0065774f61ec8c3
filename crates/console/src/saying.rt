// What a program says: on standard error, but for what it was asked to tell.
ghost use Rattle.std.specs.Prelude.{◌≡◌, false, min, length, take, IsTrue};
ghost use Rattle.textlike.specs.Texts.{looks_like_text};
ghost use Rattle.std.specs.Io.KnownBytes.{Appends};
ghost use Rattle.console.specs.Counts.{IsPrefixLen};

use octets::put;
use std::fmt::InlineText;
use std::io;
use std::io::Write;

// Room for a message that quotes a text.
pub const NOTE: usize = 512;

// Room for the system's words for an error, and its number.
const CAUSE: usize = 128;

// Where a program writes: what it was asked to tell, and what it says.
#[derive(Drop)]
pub struct Streams<O, E> {
    pub output: O,
    pub errors: E,
}

// So many bytes of a text, or all of them if there are fewer.
pub fn within(text: &[u8], n: usize) -> usize
    ensures prefix_len { IsPrefixLen result text.now }
    ensures value { result ≡ min n (length text.now) }
{
    n.min(text.len())
}

pub fn say_text<E: Write>(errors: &mut E, text: &[u8]) {
    let _ = errors.write_all(text);
}

// A hint, where an input that should be frames looks like text.
pub fn say_if_text<E: Write>(errors: &mut E, input: &[u8], hint: &[u8])
    ensures { looks_like_text input.now ≡ false → errors.new ≡ errors.old }
{
    if textlike::looks_like_text(input) {
        say_text(errors, hint);
    }
}

// The first n bytes of a message.
pub fn say<E: Write>(errors: &mut E, note: &[u8], n: usize) {
    let n = within(note, n);
    say_text(errors, &note[..n]);
}

// The program's name, what cannot be done, and the system's reason.
pub(crate) fn say_failed<E: Write>(errors: &mut E, program: &[u8], what: &[u8], cause: io::Error) {
    let mut note = [0u8; NOTE];
    let next = put(&mut note, 0, program);
    let next = put(&mut note, next, b": ");
    let next = put(&mut note, next, what);
    let next = put(&mut note, next, b": ");
    let next = put_cause(&mut note, next, cause);
    let next = put(&mut note, next, b"\n");
    say(errors, &note, next);
}

// The system's words for an error, without its number.
fn put_cause(note: &mut [u8], at: usize, cause: io::Error) -> usize {
    let text = InlineText::<CAUSE>::of(cause);
    let words = text.as_str();
    match words.rsplit_once(" (os error ") {
        Some((words, _)) => put(note, at, words.as_bytes()),
        None => put(note, at, words.as_bytes()),
    }
}

pub(crate) fn say_unread<E: Write>(errors: &mut E, program: &[u8], cause: io::Error) {
    say_failed(errors, program, b"the input cannot be read", cause);
}

// A text on standard output. Tells whether it was written; that it could not be is said at once.
pub fn tell<O: Write, E: Write>(streams: &mut Streams<O, E>, program: &[u8], text: &[u8]) -> bool
    ensures { IsTrue result → Appends (O.contents streams.old.output) (O.contents streams.new.output) text.now }
{
    match streams.output.write_all(text) {
        Ok(()) => true,
        Err(cause) => {
            let what = b"standard output cannot be written";
            say_failed(&mut streams.errors, program, what, cause);
            false
        }
    }
}

// The first n bytes of a text, if they are wanted.
pub fn tell_if<O: Write, E: Write>(
    streams: &mut Streams<O, E>,
    wanted: bool,
    program: &[u8],
    text: &[u8],
    n: usize,
) -> bool
    ensures wanted { IsTrue result → IsTrue wanted }
    ensures written { IsTrue result → Appends (O.contents streams.old.output) (O.contents streams.new.output) (take n text.now) }
{
    if !wanted {
        return false;
    }
    let n = within(text, n);
    tell(streams, program, &text[..n])
}
