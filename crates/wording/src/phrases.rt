// A frame in words: what is asked, and what came of it.
ghost use Rattle.std.specs.Prelude.{◌++◌};
ghost use Rattle.octets.specs.Text.{ascii, Puts};
ghost use Rattle.text.specs.Decimal.{decimal};
ghost use Rattle.wording.specs.Words.{span, act, asked, turned_away};

use crate::parts::{put_parts, put_span};
use counting::put_count;
use frames::Step;
use loglines::Numbers;
use octets::put;
use state::{CacheState, Record, Refusal};
use text::put_decimal;

fn put_command(line: &mut [u8], at: usize, command: usize) -> usize
    ensures { Puts line.old at (ascii "command " ++ decimal command) result line.new }
{
    let next = put(line, at, b"command ");
    put_decimal(line, next, command)
}

// What a command does.
fn put_act(line: &mut [u8], at: usize, command: usize, words: &[u8]) -> usize
    ensures { Puts line.old at (act command words.now) result line.new }
{
    let next = put_command(line, at, command);
    put(line, next, words)
}

// What it does, and where.
fn put_access(
    line: &mut [u8],
    at: usize,
    command: usize,
    words: &[u8],
    address: usize,
    size: usize,
) -> usize
    ensures { Puts line.old at (act command words.now ++ span address size) result line.new }
{
    let next = put_act(line, at, command, words);
    put_span(line, next, address, size)
}

fn put_host_write(line: &mut [u8], at: usize, address: usize, size: usize) -> usize
    ensures { Puts line.old at (ascii "the host writes " ++ span address size) result line.new }
{
    let next = put(line, at, b"the host writes ");
    put_span(line, next, address, size)
}

// What a step asks.
pub(crate) fn put_asked(line: &mut [u8], at: usize, step: Step) -> usize
    ensures { Puts line.old at (asked step) result line.new }
{
    match step {
        Step::Begin { command } => put_act(line, at, command, b" begins"),
        Step::Fetch {
            command,
            address,
            size,
        } => put_access(line, at, command, b" fetches ", address, size),
        Step::End { command } => put_act(line, at, command, b" ends"),
        Step::HostWrite { address, size } => put_host_write(line, at, address, size),
        Step::OwnWrite {
            command,
            address,
            size,
        } => put_access(line, at, command, b" writes ", address, size),
    }
}

pub(crate) fn put_refused(line: &mut [u8], at: usize, refusal: Refusal) -> usize
    ensures { Puts line.old at (turned_away refusal) result line.new }
{
    let next = put(line, at, b": refused (");
    let next = put_decimal(line, next, usize::from(refusal.number()));
    let next = put(line, next, b"): ");
    reasons::put_reason(line, next, refusal)
}

// What an accepted step did. The state is given as it was before, and as it is.
pub(crate) fn put_done(
    line: &mut [u8],
    at: usize,
    step: Step,
    numbers: Numbers,
    data: &[u8],
    before: &[u16; CacheState::WORDS],
    state: &[u16; CacheState::WORDS],
    delivered: &[u8],
) -> usize {
    match step {
        Step::Begin { .. } => at,
        Step::Fetch {
            command,
            address,
            ..
        } => {
            let next = put_parts(
                line,
                at,
                before,
                command,
                address,
                delivered,
                b"fresh",
                b"replayed",
            );
            put_records(line, next, state, command)
        }
        Step::End { .. } => put_held(line, at, numbers),
        Step::HostWrite { .. } => put_data(line, at, data),
        Step::OwnWrite {
            command,
            address,
            ..
        } => {
            let next = put_parts(line, at, before, command, address, data, b"new", b"over");
            put_records(line, next, state, command)
        }
    }
}

fn put_held(line: &mut [u8], at: usize, numbers: Numbers) -> usize {
    match numbers {
        Numbers::Two(records, bytes) => {
            let next = put(line, at, b": ");
            let next = put_count(line, next, records, b"record");
            let next = put(line, next, b", ");
            put_count(line, next, bytes, b"byte")
        }
        _ => at,
    }
}

fn put_data(line: &mut [u8], at: usize, data: &[u8]) -> usize {
    let next = put(line, at, b": ");
    if data.is_empty() {
        return put(line, next, b"nothing");
    }
    text::put_hex(line, next, data)
}

// The records of a command.
fn put_records(
    line: &mut [u8],
    at: usize,
    state: &[u16; CacheState::WORDS],
    command: usize,
) -> usize {
    let mut next = at;
    for i in 0..CacheState::RECORDS {
        let Ok(record) = show::show(state, command, i) else {
            return put_none(line, next, i);
        };
        next = put_record(line, next, i, record);
    }
    next
}

fn put_none(line: &mut [u8], at: usize, records: usize) -> usize {
    if records == 0 {
        return put(line, at, b"; no records");
    }
    at
}

// What stands before record i.
fn put_gap(line: &mut [u8], at: usize, i: usize) -> usize {
    if i == 0 {
        return put(line, at, b"; records ");
    }
    put(line, at, b" ")
}

fn put_record(line: &mut [u8], at: usize, i: usize, record: Record) -> usize {
    let next = put_gap(line, at, i);
    put_span(
        line,
        next,
        usize::from(record.start),
        usize::from(record.len),
    )
}
