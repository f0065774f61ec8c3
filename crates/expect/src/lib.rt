// What is expected of a step, and whether an answer meets it.
#![tactic(auto)]

ghost use Rattle.std.specs.Prelude.{◌≡◌, [], ◌+◌, ◌≤◌, ltb, eqb, length, drop, get_or};
ghost use Rattle.scan.specs.Scan.{front};
ghost use Rattle.expect.specs.Expect.{expected, words_of, same, is_verdict, delivers, meets};

use scan::{Stop, has_word, until};

// A part of a line: its first place, and the one behind its last.
#[derive(Clone, Copy)]
pub struct Span {
    pub start: usize,
    pub end: usize,
}

// The part of a line that stands behind `=` and before the comment, blanks and all. It is empty if there is none.
pub fn expected(line: &[u8]) -> Span
    ensures { result ≡ expected line.now }
{
    let end = until(line, 0, Stop::Comment);
    let cut = until(&line[..end], 0, Stop::Equals);
    Span {
        start: (cut + 1).min(end),
        end,
    }
}

// The place behind the first n words.
fn behind(text: &[u8], n: usize) -> usize
    ensures inside { result ≤ length text.now }
    ensures rest { words_of (drop result text.now) ≡ drop n (words_of text.now) }
{
    let mut at = 0;
    for _ in 0..n {
        at = until(text, until(text, at, Stop::Word), Stop::Blank);
    }
    at
}

// Has the text more than n words?
fn has_more(text: &[u8], n: usize) -> bool
    ensures { result ≡ ltb n (length (words_of text.now)) }
{
    has_word(text, behind(text, n))
}

// Is the word of a number, counted from 0, the last one?
fn is_last(text: &[u8], n: usize) -> bool
    ensures { result ≡ eqb (length (words_of text.now)) (n + 1) }
{
    has_more(text, n) && !has_more(text, n + 1)
}

// The word of a number, counted from 0, and no bytes if there is none.
fn word(text: &[u8], n: usize) -> &[u8]
    ensures { result.now ≡ get_or (words_of text.now) n [] }
{
    let from = until(text, behind(text, n), Stop::Word);
    let to = until(text, from, Stop::Blank);
    &text[from..to]
}

// Are two words the same, whatever the case of their letters?
fn same(one: &[u8], other: &[u8]) -> bool
    ensures { result ≡ same one.now other.now }
{
    one.eq_ignore_ascii_case(other)
}

#[tactic(auto, unfolding(crate::specs::Expect::is_verdict))]
fn is_verdict(word: &[u8]) -> bool
    ensures { result ≡ is_verdict word.now }
{
    same(word, b"ok") || same(word, b"no")
}

// Are the words of the one the first words of the other?
fn begins(expected: &[u8], answer: &[u8]) -> bool
    ensures { result ≡ front same (words_of expected.now) (words_of answer.now) }
{
    // How many words there are is known once they have been passed, so a `for` would be no plainer.
    let mut i = 0;
    while has_more(expected, i) {
        if !has_more(answer, i) {
            return false;
        }
        if !same(word(expected, i), word(answer, i)) {
            return false;
        }
        i += 1;
    }
    true
}

// Is it the answer to a fetch, and delivers these bytes?
#[tactic(auto, unfolding(crate::specs::Expect::delivers))]
fn delivers(bytes: &[u8], answer: &[u8]) -> bool
    ensures { result ≡ delivers bytes.now (words_of answer.now) }
{
    is_last(answer, 3) && same(word(answer, 0), b"ok") && same(word(answer, 3), bytes)
}

// Does an answer, as the log prints it behind the letter, meet an expectation?
#[tactic(auto, unfolding(crate::specs::Expect::meets_words))]
pub fn meets(expected: &[u8], answer: &[u8]) -> bool
    ensures { result ≡ meets expected.now answer.now }
{
    let first = word(expected, 0);
    if is_verdict(first) {
        return begins(expected, answer);
    }
    is_last(expected, 0) && delivers(first, answer)
}
