// Lines that are a name and arguments: calls and results.
#![tactic(auto)]

use calls::CALLS;
use results::RESULTS;

mod arguments;
mod calls;
mod entries;
mod results;

pub use arguments::Arguments;
pub use calls::CallName;

// Why a line is not understood.
#[derive(Clone, Copy, PartialEq, Eq, Debug)]
pub enum Fault {
    // No row has its name.
    Name,
    // The rows of its name have other numbers of words.
    Count,
    // The word so many behind the name is not what a row's letter stands for.
    Word(usize, u8),
    // It is longer than the buffer for lines.
    Long,
    // Of an @ line: what is behind the @ is no number; no call that is understood stands above it; the call has too many.
    Exchange,
    Alone,
    Room,
    // Of a transcript's line: it answers or ends no call, or comes where the call did something else.
    Place,
}

// Those of a line that has a row's name and words.
fn tried(line: &[u8], name: &[u8], shape: &[u8], a: &mut Arguments<'_>) -> Result<(), Fault> {
    if !text::is(line, 0, name) {
        return Err(Fault::Name);
    }
    match shape {
        b"we" => a.fill_list(line),
        _ => a.fill(line, shape),
    }
}

// Of two rows' faults the one that says more.
fn nearer(a: Fault, b: Fault) -> Fault {
    match b {
        Fault::Name => a,
        Fault::Count if a != Fault::Name => a,
        _ => b,
    }
}

// The first row of a table that is the line's; what its words say goes to the arguments. A row is a name, the line's first word; a letter
// for each word that follows it: d decimal, h hex, i identifier, f flags, b bytes, m std, ext or both, k std or ext, s timestamp; t, r, o,
// q, a and u are the words tx, rx, off, queue, back and unread; and what it stands for. The row we is report or rewrite, and behind it
// entries, any number up to 256, none included.
pub fn row_of<T: Copy>(
    line: &[u8],
    rows: &[(&[u8], &[u8], T)],
    a: &mut Arguments<'_>,
) -> Result<T, Fault> {
    let mut fault = Fault::Name;
    for (name, shape, what) in rows {
        match tried(line, name, shape, a) {
            Ok(()) => return Ok(*what),
            Err(f) => fault = nearer(fault, f),
        }
    }
    Err(fault)
}

// A call's line, `call NAME ARGS...`.
pub fn understood(line: &[u8], a: &mut Arguments<'_>) -> Result<CallName, Fault> {
    row_of(text::rest(line, 1), &CALLS, a)
}

// A result's line, `= RESULT`.
pub fn result(line: &[u8], a: &mut Arguments<'_>) -> Result<(), Fault> {
    row_of(text::rest(line, 1), &RESULTS, a)
}
