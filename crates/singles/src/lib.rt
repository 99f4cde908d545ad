// Lines that are cases by themselves, as the port has them.
#![tactic(auto)]

use classes::Class;
use items::Item;
use lines::Writer;
use named::NoValue;
use spoken::Fault;

// Whether a line has so many words, with `->` at this place.
fn is_whole(line: &[u8], words: usize, arrow: usize) -> bool {
    text::count(line) == words && text::is(line, arrow, b"->")
}

// `crc BYTES -> HEX` as the port has it, or none where it is not understood.
fn crc_line(line: &[u8], out: &mut Writer<'_>) -> Option<()> {
    let mut scratch = [0u8; 4200];
    if !is_whole(line, 4, 2) {
        return None;
    }
    let n = text::bytes(text::word(line, 1), &mut scratch)?;
    text::hex(text::word(line, 3))?;
    let s = text::front(&scratch, n);
    out.put(b"crc ");
    out.bytes(s);
    out.put(b" -> ");
    out.hex(crc::checksum(s) as u64, 4);
    Some(())
}

// Up to 16 hex digits: a word, or the two of a header.
fn double(w: &[u8]) -> Option<u64> {
    if w.len() <= 8 {
        return text::hex(w);
    }
    let (high, low) = w.split_at(w.len() - 8);
    text::hex(high)?
        .checked_mul(0x1_0000_0000)?
        .checked_add(text::hex(low)?)
}

// The line up to its answer, word k.
fn question(line: &[u8], k: usize) -> &[u8] {
    line.strip_suffix(text::word(line, k)).unwrap_or(line)
}

// A field's value or word is put; of one that is not carried, nothing.
fn put_value<F: FnOnce(u64)>(value: Result<u64, NoValue>, put: F) -> Option<()>
    requires { (v : _) → F.pre put v }
{
    match value {
        Ok(v) => put(v),
        Err(NoValue::Absent) => {}
        Err(NoValue::Unknown) => return None,
    }
    Some(())
}

// `field REGISTER NAME WORD -> VALUE`, a field read.
fn read_line(line: &[u8], out: &mut Writer<'_>) -> Option<()> {
    let word = double(text::word(line, 3))?;
    text::decimal(text::word(line, 5))?;
    out.put(question(line, 5));
    put_value(
        fields::field_read(text::word(line, 1), text::word(line, 2), word),
        |v| out.decimal(v),
    )
}

// `field REGISTER NAME VALUE WORD -> WORD`, a field set.
fn set_line(line: &[u8], out: &mut Writer<'_>) -> Option<()> {
    let v = text::decimal(text::word(line, 3))?;
    let word = double(text::word(line, 4))?;
    double(text::word(line, 6))?;
    out.put(question(line, 6));
    let width = text::word(line, 4).len();
    put_value(
        fields::field_set(text::word(line, 1), text::word(line, 2), v, word),
        |x| out.hex(x, width),
    )
}

fn field_line(line: &[u8], out: &mut Writer<'_>) -> Option<()> {
    if is_whole(line, 6, 4) {
        return read_line(line, out);
    }
    if is_whole(line, 7, 5) {
        return set_line(line, out);
    }
    None
}

// Whether TDCO's top bit makes a difference. Read from a word, it is taken for 0.
fn delay_class(line: &[u8]) -> Option<Class> {
    let (v, w) = if is_whole(line, 6, 4) {
        (0, text::hex(text::word(line, 3))?)
    } else {
        let v = text::decimal(text::word(line, 3))?;
        (v, text::hex(text::word(line, 4))?)
    };
    classes::is_cut(v, u32::try_from(w).ok()?).then_some(Class::Tdco)
}

fn field_class(line: &[u8]) -> Option<Class> {
    match (text::word(line, 1), text::word(line, 2)) {
        (b"CiTDC", b"tdco") => delay_class(line),
        (b"TxHeader" | b"RxHeader", b"sid11") => Some(Class::Absent),
        _ => None,
    }
}

pub fn is_single(item: Result<Item, Fault>) -> bool {
    matches!(item, Ok(Item::Field | Item::Crc))
}

// Why the line is not compared, if it is not.
pub fn class(item: Result<Item, Fault>, line: &[u8]) -> Option<Class> {
    match item {
        Ok(Item::Field) => field_class(line),
        _ => None,
    }
}

pub fn single(item: Result<Item, Fault>, line: &[u8], out: &mut Writer<'_>) -> Option<()> {
    match item {
        Ok(Item::Field) => field_line(line, out),
        Ok(Item::Crc) => crc_line(line, out),
        _ => None,
    }
}
