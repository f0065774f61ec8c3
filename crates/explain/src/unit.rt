// How the line of words of a frame begins: with its number, and with the line of steps that it comes from, if it comes from one.
ghost use Rattle.std.specs.Prelude.{◌≤◌, length};

use octets::put;
use scan::Stop;
use text::put_decimal;

// The number of a frame. Tells the place behind it.
pub(crate) fn begin_frame(line: &mut [u8], number: usize) -> usize {
    let next = put_decimal(line, 0, number);
    put(line, next, b" ")
}

// The number of a frame, and its step with the number of the line. Tells the place behind them.
pub(crate) fn begin_step(line: &mut [u8], number: usize, place: usize, step: &[u8]) -> usize {
    let next = put_decimal(line, 0, number);
    let next = put(line, next, b" (");
    let next = put_decimal(line, next, place);
    let next = put(line, next, b": ");
    let next = put_step(line, next, step);
    put(line, next, b") ")
}

// A line without its comment.
fn put_step(line: &mut [u8], at: usize, step: &[u8]) -> usize {
    let n = console::within(step, scan::until(step, 0, Stop::Comment));
    put_trimmed(line, at, &step[..n])
}

// A text without the blanks at both ends, quoted.
pub(crate) fn put_trimmed(line: &mut [u8], at: usize, text: &[u8]) -> usize {
    let to = words_end(text);
    let from = scan::until(text, 0, Stop::Word).min(to);
    quoting::quote(line, at, &text[from..to])
}

// Where the last word of a text ends.
fn words_end(text: &[u8]) -> usize
    ensures { result ≤ length text.now }
{
    for i in (0..text.len()).rev() {
        if scan::until(&text[i..i + 1], 0, Stop::Word) == 0 {
            return i + 1;
        }
    }
    0
}
