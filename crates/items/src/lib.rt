// What a line of a transcript is by itself.
#![tactic(auto)]

use reading::Line;
use spoken::{Arguments, Fault};

#[derive(Clone, Copy, PartialEq, Eq, Debug)]
pub enum Item {
    Blank,
    // A call, understood or not.
    Call,
    // `> SENT WANT`, `wait N` and `= RESULT`: what a call does.
    Sent,
    Wait,
    Result,
    // `<` with so many bytes, and `!`: what it is answered.
    Got(usize),
    Failed,
    // Lines that are cases by themselves.
    Field,
    Crc,
}

// The bytes go to `rx`.
fn got(line: &[u8], rx: &mut [u8]) -> Result<Item, Fault> {
    let mut a = Arguments::new(rx);
    spoken::row_of(line, &[(b"<", b"b", ())], &mut a)?;
    Ok(Item::Got(a.last()))
}

fn result(line: &[u8]) -> Result<Item, Fault> {
    let mut scratch = [0u8; 4200];
    spoken::result(line, &mut Arguments::new(&mut scratch))?;
    Ok(Item::Result)
}

fn sent(line: &[u8]) -> Result<Item, Fault> {
    let mut scratch = [0u8; 4200];
    let mut a = Arguments::new(&mut scratch);
    spoken::row_of(line, &[(b">", b"bd", Item::Sent)], &mut a)
}

// Those without bytes, which need no room for them.
const OTHERS: [(&[u8], &[u8], Item); 2] = [(b"!", b"", Item::Failed), (b"wait", b"d", Item::Wait)];

fn other(line: &[u8]) -> Result<Item, Fault> {
    spoken::row_of(line, &OTHERS, &mut Arguments::new(&mut []))
}

// A line that is too long is a call that is not understood, or nothing.
pub fn item_of(line: Line<'_>, rx: &mut [u8]) -> Result<Item, Fault> {
    let Line { text: said, long } = line;
    match text::word(said, 0) {
        b"" => Ok(Item::Blank),
        b"call" => Ok(Item::Call),
        _ if long => Err(Fault::Long),
        b"<" => got(said, rx),
        b"=" => result(said),
        b">" => sent(said),
        b"field" => Ok(Item::Field),
        b"crc" => Ok(Item::Crc),
        _ => other(said),
    }
}
