// What a line of a script is.
#![tactic(auto)]

use reading::Line;
use spoken::{Arguments, Fault};

// A bus step. A frame that arrives has its DLC on the line, or the one that its payload's length has.
#[derive(Clone, Copy, PartialEq, Eq, Debug)]
pub enum Bus {
    Send,
    SendQueue,
    Deliver { coded: bool },
    Sort { coded: bool },
}

// What stands between calls.
#[derive(Clone, Copy, PartialEq, Eq, Debug)]
pub enum Between {
    Bus(Bus),
    Raw,
    Held,
    HeldQueue,
    New,
}

// What an @ line says of its exchange: a bus step comes before it, it fails, it is answered otherwise.
#[derive(Clone, Copy, PartialEq, Eq, Debug)]
pub enum Note {
    Bus(Bus),
    Fail,
    Answer,
}

#[derive(Clone, Copy, PartialEq, Eq, Debug)]
pub enum Entry {
    // Blank, or a comment.
    Blank,
    // A call that is understood.
    Call,
    // An @ line, understood or not: neither ends the call above it.
    Note(Result<Note, Fault>),
    Step(Between),
}

// Lines of bus steps, between calls and in @ lines.
const BUS: [(&[u8], &[u8], Bus); 6] = [
    (b"send", b"d", Bus::Send),
    (b"deliver", b"difhb", Bus::Deliver { coded: false }),
    (b"deliver", b"difhbd", Bus::Deliver { coded: true }),
    (b"sort", b"ifhb", Bus::Sort { coded: false }),
    (b"sort", b"ifhbd", Bus::Sort { coded: true }),
    (b"send", b"q", Bus::SendQueue),
];

// What an @ line has besides bus steps.
const NOTES: [(&[u8], &[u8], Note); 2] = [
    (b"fail", b"", Note::Fail),
    (b"answer", b"b", Note::Answer),
];

// What stands between calls besides bus steps.
const STEPS: [(&[u8], &[u8], Between); 4] = [
    (b"raw", b"bd", Between::Raw),
    (b"held", b"d", Between::Held),
    (b"held", b"q", Between::HeldQueue),
    (b"new", b"", Between::New),
];

// The number of the exchange that an @ line is about.
pub fn exchange_of(line: &[u8]) -> Option<u64> {
    text::decimal(text::word(line, 0).get(1..)?)
}

// A bus step, or what has one of these rows.
fn or_bus<T: Copy, F: Fn(Bus) -> T>(
    line: &[u8],
    rows: &[(&[u8], &[u8], T)],
    bus: F,
    a: &mut Arguments<'_>,
) -> Result<T, Fault>
    requires { F.IsAlwaysCallable bus }
{
    match spoken::row_of(line, &BUS, a) {
        Err(Fault::Name) => spoken::row_of(line, rows, a),
        step => Ok(bus(step?)),
    }
}

// What an @ line says; its words go to the arguments.
pub fn note_of(line: &[u8], a: &mut Arguments<'_>) -> Result<Note, Fault> {
    or_bus(text::rest(line, 1), &NOTES, Note::Bus, a)
}

fn noted(line: &[u8], a: &mut Arguments<'_>) -> Result<Note, Fault> {
    exchange_of(line).ok_or(Fault::Exchange)?;
    note_of(line, a)
}

fn step(line: &[u8], a: &mut Arguments<'_>) -> Result<Between, Fault> {
    or_bus(line, &STEPS, Between::Bus, a)
}

// Of a line that is too long only the front is there, which is no more than a comment or an error.
fn long_entry(first: u8) -> Result<Entry, Fault> {
    match first {
        b'#' => Ok(Entry::Blank),
        b'@' => Ok(Entry::Note(Err(Fault::Long))),
        _ => Err(Fault::Long),
    }
}

// What a line's words say goes to the arguments.
pub fn entry_of(line: Line<'_>, a: &mut Arguments<'_>) -> Result<Entry, Fault> {
    let Line { text: said, long } = line;
    match said.first() {
        None => Ok(Entry::Blank),
        Some(first) if long => long_entry(*first),
        Some(b'#') => Ok(Entry::Blank),
        Some(b'@') => Ok(Entry::Note(noted(said, a))),
        Some(_) if text::is(said, 0, b"call") => {
            spoken::understood(said, a)?;
            Ok(Entry::Call)
        }
        Some(_) => Ok(Entry::Step(step(said, a)?)),
    }
}

// Whether a call that waits for its @ lines is run before this line.
pub fn ends(entry: Result<Entry, Fault>) -> bool {
    !matches!(entry, Ok(Entry::Blank | Entry::Note(_)))
}
