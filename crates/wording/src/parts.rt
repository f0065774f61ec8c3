// The parts of a span that is fetched or written: addresses that were not held before, and those that a record held.
ghost use Rattle.octets.specs.Text.{Puts};
ghost use Rattle.wording.specs.Words.{span};

use octets::put;
use state::CacheState;
use text::put_decimal;

// An address and a length.
pub(crate) fn put_span(line: &mut [u8], at: usize, start: usize, len: usize) -> usize
    ensures { Puts line.old at (span start len) result line.new }
{
    let next = put_decimal(line, at, start);
    let next = put(line, next, b"+");
    put_decimal(line, next, len)
}

fn put_comma(line: &mut [u8], at: usize, from: usize) -> usize {
    if 0 < from {
        return put(line, at, b", ");
    }
    at
}

// What a part is, with a comma before every part but the first.
fn put_kind(line: &mut [u8], at: usize, kind: &[u8], from: usize) -> usize {
    let next = put_comma(line, at, from);
    let next = put(line, next, kind);
    put(line, next, b" ")
}

fn put_bytes(line: &mut [u8], at: usize, bytes: &[u8]) -> usize {
    let next = put(line, at, b" ");
    text::put_hex(line, next, bytes)
}

// The part of a span from one place up to another: what it is, its address and length, and its bytes. A part of no bytes is left out.
fn put_part(
    line: &mut [u8],
    at: usize,
    kind: &[u8],
    address: usize,
    bytes: &[u8],
    from: usize,
    to: usize,
) -> usize {
    let to = to.min(bytes.len()).min(CacheState::TRANSFER);
    if to <= from {
        return at;
    }
    let start = address.min(CacheState::WINDOW) + from;
    let next = put_kind(line, at, kind, from);
    let next = put_span(line, next, start, to - from);
    put_bytes(line, next, &bytes[from..to])
}

// The parts in ascending order: for each record what stands before it, `unheld`, and what it held. The state is the one before the call.
fn put_all(
    line: &mut [u8],
    at: usize,
    before: &[u16; CacheState::WORDS],
    command: usize,
    address: usize,
    bytes: &[u8],
    unheld: &[u8],
    held: &[u8],
) -> usize {
    let mut next = at;
    let mut done = 0;
    for i in 0..CacheState::RECORDS {
        let Ok(record) = show::show(before, command, i) else {
            break;
        };
        let start = usize::from(record.start);
        let end = start + usize::from(record.len);
        let from = done.max(start.saturating_sub(address));
        let to = done.max(end.saturating_sub(address));
        next = put_part(line, next, unheld, address, bytes, done, from);
        next = put_part(line, next, held, address, bytes, from, to);
        done = to;
    }
    put_part(line, next, unheld, address, bytes, done, bytes.len())
}

// The bytes of a span, with a word for each part that was not held before and one for each that was.
pub(crate) fn put_parts(
    line: &mut [u8],
    at: usize,
    before: &[u16; CacheState::WORDS],
    command: usize,
    address: usize,
    bytes: &[u8],
    unheld: &[u8],
    held: &[u8],
) -> usize {
    let next = put(line, at, b": ");
    if bytes.is_empty() {
        return put(line, next, b"nothing");
    }
    put_all(line, next, before, command, address, bytes, unheld, held)
}
