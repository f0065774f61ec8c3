// An input, read whole.
ghost use Rattle.std.specs.Prelude.{◌≡◌, ◌+◌, ◌<◌, ◌≤◌, length, take, drop, IfOk, OnErr};
ghost use Rattle.std.specs.Io.KnownBytes.{Keeps, Consumes, IsAtEnd};
ghost use Rattle.console.specs.Counts.{IsPrefixLen};
ghost use Rattle.console.specs.Reads.{read_count};

use crate::saying::say_unread;
use std::io;
use std::io::{Read, Write};

// A read failed, after so many bytes had been read to the front of the buffer.
#[derive(Clone, Copy)]
pub struct Unread {
    pub count: usize,
}

// One read into the buffer from a place on: how many bytes it gave.
fn read_more<R: Read>(input: &mut R, buffer: &mut [u8], done: usize) -> io::Result<usize>
    requires { done ≤ length buffer.old }
    ensures front { take done buffer.new ≡ take done buffer.old }
    ensures fits { IfOk result (λ n. done + n ≤ length buffer.new) }
    ensures bytes { IfOk result (λ n. Consumes (R.remaining input.old) (R.remaining input.new) (take n (drop done buffer.new))) }
    ensures end { IfOk result (λ n. n ≡ 0 → done < length buffer.new → IsAtEnd (R.remaining input.new)) }
    ensures err { OnErr result (Keeps (R.remaining input.old) (R.remaining input.new)) }
{
    input.read(&mut buffer[done..])
}

// Reads to the front of the buffer until that is full or the input ends, and tells how many bytes. That a read failed is said.
pub fn read_whole<R: Read, E: Write>(
    errors: &mut E,
    program: &[u8],
    input: &mut R,
    buffer: &mut [u8],
) -> Result<usize, Unread>
    ensures count { IsPrefixLen (read_count result) buffer.new }
    ensures bytes { Consumes (R.remaining input.old) (R.remaining input.new) (take (read_count result) buffer.new) }
    ensures end { IfOk result (λ n. n < length buffer.new → IsAtEnd (R.remaining input.new)) }
{
    let mut done = 0;
    // A turn goes on by as many bytes as a read gave.
    while done < buffer.len() {
        match read_more(input, buffer, done) {
            Ok(0) => break,
            Ok(more) => done += more,
            Err(cause) => {
                say_unread(errors, program, cause);
                return Err(Unread { count: done });
            }
        }
    }
    Ok(done)
}
