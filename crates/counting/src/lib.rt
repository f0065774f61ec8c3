// Counts as a message tells them.
#![tactic(auto)]

ghost use Rattle.std.specs.Prelude.{◌≡◌};
ghost use Rattle.octets.specs.Text.{Puts};
ghost use Rattle.counting.specs.Counting.{counted, told, lost};

use octets::put;
use text::put_decimal;

// A number and what it counts, in the plural where it is not one.
pub fn put_count(out: &mut [u8], at: usize, n: usize, noun: &[u8]) -> usize
    ensures { Puts out.old at (counted n noun.now) result out.new }
{
    let next = put_decimal(out, at, n);
    let next = put(out, next, b" ");
    let next = put(out, next, noun);
    if n == 1 {
        return put(out, next, b"");
    }
    put(out, next, b"s")
}

// How a run of frames went.
pub fn put_run(
    out: &mut [u8],
    at: usize,
    frames: usize,
    carried: usize,
    refused: usize,
    early: bool,
) -> usize
    ensures { Puts out.old at (told frames carried refused early) result out.new }
{
    let next = put_count(out, at, frames, b"frame");
    let next = put(out, next, b", ");
    let next = put_decimal(out, next, carried);
    let next = put(out, next, b" ok, ");
    let next = put_decimal(out, next, refused);
    let next = put(out, next, b" refused");
    if early {
        return put(out, next, b", 1 unreadable");
    }
    put(out, next, b"")
}

// From which line or frame on what is written was lost, if it was: of so many, so many were kept.
pub fn put_lost(out: &mut [u8], at: usize, words: &[u8], all: usize, kept: usize) -> usize
    ensures { Puts out.old at (lost words.now all kept) result out.new }
{
    if all <= kept {
        return put(out, at, b"");
    }
    let next = put(out, at, words);
    let next = put_decimal(out, next, kept + 1);
    put(out, next, b" on")
}
