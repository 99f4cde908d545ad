// Why a line is not understood, told on standard error; standard output has its `error` line alone.
#![tactic(auto)]

use forms::FORMS;
use output::{tell, tell_number};
use spoken::Fault;
use std::rt::Stderr;

mod forms;

// A character as it is shown: one that a terminal would act on is not.
fn plain(b: u8) -> u8 {
    match b {
        b' '..=b'~' => b,
        _ => b'?',
    }
}

// A word, of a long one the front.
fn show(stderr: Stderr, w: &[u8]) {
    let mut out = [0u8; 40];
    for (place, b) in out.iter_mut().zip(w) {
        *place = plain(*b);
    }
    tell(stderr, text::front(&out, w.len()));
    if 40 < w.len() {
        tell(stderr, b"..");
    }
}

// A line from its name on: `call`, `=` and @ words stand before it.
fn named(line: &[u8]) -> &[u8] {
    match text::word(line, 0) {
        b"call" | b"=" | [b'@', ..] => text::rest(line, 1),
        _ => line,
    }
}

fn unknown(stderr: Stderr, w: &[u8]) {
    if w.is_empty() {
        tell(stderr, b"a name is missing");
        return;
    }
    tell(stderr, b"unknown word: ");
    show(stderr, w);
}

// What a letter of a row stands for.
fn expected(letter: u8) -> &'static [u8] {
    match letter {
        b'd' => b"a decimal number of at most 12 digits",
        b'h' => b"a hex number of at most 8 lowercase digits",
        b'i' => b"an identifier, s or x and at most 8 lowercase hex digits",
        b'f' => b"flags, which are letters of fber in this order, or -",
        b'b' => b"bytes, which are an even number of lowercase hex digits, or -",
        b'm' => b"std, ext or both",
        b'k' => b"std or ext",
        b's' => b"a timestamp, which is at most 8 lowercase hex digits, or -",
        b't' => b"tx",
        b'r' => b"rx",
        b'q' => b"a decimal number of at most 12 digits, or queue",
        b'w' => b"report or rewrite",
        b'e' => b"ADDR:WORD:MASK, three hex numbers of at most 8 lowercase digits",
        b'a' => b"back",
        b'u' => b"unread",
        _ => b"off",
    }
}

fn wrong(stderr: Stderr, w: &[u8], letter: u8) {
    show(stderr, w);
    tell(stderr, b" is not ");
    tell(stderr, expected(letter));
}

fn reason(stderr: Stderr, fault: Fault, words: &[u8]) {
    match fault {
        Fault::Name => unknown(stderr, text::word(words, 0)),
        Fault::Count => tell(stderr, b"it has another number of words than expected"),
        Fault::Word(k, letter) => wrong(stderr, text::word(words, k), letter),
        Fault::Long => tell(stderr, b"it is too long"),
        Fault::Exchange => tell(stderr, b"behind its @ is no decimal number"),
        Fault::Alone => tell(stderr, b"it is below no call that was understood"),
        Fault::Room => tell(stderr, b"its call has no room for one more @ line"),
        Fault::Place => tell(stderr, b"it is out of place"),
    }
}

// The rows of a name.
fn show_forms(stderr: Stderr, name: &[u8]) {
    for row in FORMS.iter().filter(|row| text::is(row, 0, name)) {
        tell(stderr, b"    expected: ");
        tell(stderr, row);
        tell(stderr, b"\n");
    }
}

// The line of this number is not understood. What a row has is told where a word or their number is wrong.
pub fn told(stderr: Stderr, number: u64, fault: Fault, line: &[u8]) {
    let words = named(line);
    tell(stderr, b"line ");
    tell_number(stderr, number);
    tell(stderr, b": ");
    reason(stderr, fault, words);
    tell(stderr, b"\n");
    if matches!(fault, Fault::Count | Fault::Word(..)) {
        show_forms(stderr, text::word(words, 0));
    }
}
