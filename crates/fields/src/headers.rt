// A message's two header words, through the port's encoding and decoding: it has no reader or setter for a single field. SID, EID and
// DLC, the five flags, SEQ of an object to send or FILHIT of one received; SID11 is not carried.
ghost use Rattle.std.specs.Prelude.{◌≤◌};

use header::{
    Header, dlc_of, eid_of, filter_of, first_word, header_of, received_word, second_word,
};
use named::{NoValue, fitting, flag};

// A header with the flag of this name alone; with none for any other field.
fn lone(name: &[u8]) -> Header {
    Header {
        extended: matches!(name, b"ide"),
        id: 0,
        rtr: matches!(name, b"rtr"),
        brs: matches!(name, b"brs"),
        fdf: matches!(name, b"fdf"),
        esi: matches!(name, b"esi"),
    }
}

fn flag_word(name: &[u8]) -> u32 {
    second_word(lone(name), 0, 0)
}

// In the port a classic frame to send with a DLC above 8 is none, so SEQ is read as an FD frame's.
fn seq_in(b: u32) -> u32 {
    let mut object = [0u8; 72];
    object[4..8].copy_from_slice(&(b | flag_word(b"fdf")).to_le_bytes());
    message::decode(true, false, &object).map_or(0, |frame| frame.seq)
}

fn low(word: u64) -> u32 {
    (word & 0xFFFF_FFFF) as u32
}

fn high(word: u64) -> u32 {
    (word >> 32) as u32
}

fn joined(a: u32, b: u32) -> u64 {
    u64::from(b) << 32 | u64::from(a)
}

pub fn read(sending: bool, name: &[u8], word: u64) -> Result<u32, NoValue> {
    let a = low(word);
    let b = high(word);
    let h = header_of(a, b);
    match name {
        b"sid" => Ok(header_of(a, 0).id),
        b"eid" => Ok(eid_of(true, header_of(a, flag_word(b"ide")).id)),
        b"dlc" => Ok(dlc_of(b) as u32),
        b"ide" => Ok(h.extended as u32),
        b"rtr" => Ok(h.rtr as u32),
        b"brs" => Ok(h.brs as u32),
        b"fdf" => Ok(h.fdf as u32),
        b"esi" => Ok(h.esi as u32),
        b"seq" if sending => Ok(seq_in(b)),
        b"filhit" if !sending => Ok(filter_of(b) as u32),
        b"sid11" => Err(NoValue::Absent),
        _ => Err(NoValue::Unknown),
    }
}

// The first word of an extended message with this identifier.
fn id_word(id: u32) -> u32
    requires { id ≤ 0x1FFFFFFF }
{
    first_word(Header {
        extended: true,
        id,
        ..lone(b"")
    })
}

// The bits of `all` as in `set`, and the others as they are.
fn over(w: u32, all: u32, set: u32) -> u32 {
    w & !all | set
}

// The first word with SID or EID set. The field's bits are those that are 1 for its largest value.
fn with_first(name: &[u8], v: u32, a: u32) -> Option<u32> {
    match name {
        b"sid" => Some(over(a, id_word(0x1FFC_0000), id_word(fitting(v, 11)? * 0x4_0000))),
        b"eid" => Some(over(a, id_word(0x3_FFFF), id_word(fitting(v, 18)?))),
        _ => None,
    }
}

// The second word with another field set.
fn with_second(sending: bool, name: &[u8], v: u32, b: u32) -> Option<u32> {
    let none = lone(b"");
    let (all, set) = match name {
        b"dlc" => (
            second_word(none, 0, 15),
            second_word(none, 0, fitting(v, 4)?),
        ),
        b"seq" if sending => (
            second_word(none, 0x7F_FFFF, 0),
            second_word(none, fitting(v, 23)?, 0),
        ),
        b"filhit" if !sending => (
            received_word(none, 0, 31),
            received_word(none, 0, fitting(v, 5)?),
        ),
        b"ide" | b"rtr" | b"brs" | b"fdf" | b"esi" => {
            let all = flag_word(name);
            (all, if flag(v)? { all } else { 0 })
        }
        _ => return None,
    };
    Some(over(b, all, set))
}

// The header's words with the field set, and no value also where that is too large.
pub(crate) fn with(sending: bool, name: &[u8], v: u32, word: u64) -> Result<u64, NoValue> {
    let a = low(word);
    let b = high(word);
    match name {
        b"sid11" => Err(NoValue::Absent),
        b"sid" | b"eid" => {
            let set = with_first(name, v, a).ok_or(NoValue::Unknown)?;
            Ok(joined(set, b))
        }
        _ => {
            let set = with_second(sending, name, v, b).ok_or(NoValue::Unknown)?;
            Ok(joined(a, set))
        }
    }
}
