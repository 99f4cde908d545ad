// An object's bytes, read as the message that they hold.
ghost use Rattle.std.specs.Prelude.{◌≡◌, ◌+◌, ◌≤◌, length, if◌then◌else◌, Some, None};
ghost use Rattle.field.specs.Field.{read, flag};
ghost use Rattle.words.specs.Words.{le_at};
ghost use Rattle.header.specs.Header.{DLC, FDF, SEQ, FILHIT};
ghost use Rattle.message.specs.Message.{body_at, message_in, length_in, decoding};
ghost use Rattle.message.specs.Structs.{payload_in, frame_of, decoded_as};

use header::{Header, dlc_of, filter_of, header_of, length_of, received_length_of};

// What lies behind the first `len` bytes is 0.
#[derive(Clone, Copy)]
pub struct Payload {
    pub bytes: [u8; 64],
    pub len: usize,
}

#[derive(Clone, Copy)]
pub struct Frame {
    pub header: Header,
    pub dlc: u8,
    pub filter: u8,
    pub seq: u32,
    pub stamp: Option<u32>,
    pub payload: Payload,
}

// Why an object's bytes are no whole message: no frame, of one to send that is classic and has a DLC above 8; or fewer bytes than
// the DLC means.
#[derive(Clone, Copy)]
pub enum Undecoded {
    NoFrame,
    Short,
}

fn hold(p: &[u8]) -> Payload
    requires { length p.now ≤ 64 }
    ensures { result ≡ payload_in p.now }
{
    let mut b = [0u8; 64];
    parts::put_at(&mut b, 0, p);
    Payload {
        bytes: b,
        len: p.len(),
    }
}

fn body_at(stamped: bool) -> usize
    ensures { (result ≡ body_at stamped) × (8 ≤ result) × (result ≤ 12) }
{
    if stamped { 12 } else { 8 }
}

fn stamp_in(stamped: bool, b: &[u8]) -> Option<u32>
    requires { body_at stamped ≤ length b.now }
    ensures { result ≡ (if stamped then Some (le_at b.now 8) else None) }
{
    stamped.then(|| words::le_at(b, 8))
}

fn seq_in(sending: bool, w: u32) -> u32
    ensures { result ≡ (if sending then read SEQ w else 0) }
{
    if sending { field::get(w, 9, 23) } else { 0 }
}

fn filter_in(sending: bool, w: u32) -> u8
    ensures { result ≡ (if sending then 0 else read FILHIT w) }
{
    if sending { 0 } else { filter_of(w) }
}

// The message of an object whose payload is the n bytes from `start` on.
fn frame_in(sending: bool, stamped: bool, start: usize, n: usize, b: &[u8]) -> Frame
    requires { (start ≡ body_at stamped) × (8 ≤ start) × (start + n ≤ length b.now) × (n ≤ 64) }
    ensures { result ≡ frame_of (message_in sending stamped n b.now) }
{
    let w = words::le_at(b, 4);
    Frame {
        header: header_of(words::le_at(b, 0), w),
        dlc: dlc_of(w),
        filter: filter_in(sending, w),
        seq: seq_in(sending, w),
        stamp: stamp_in(stamped, b),
        payload: hold(&b[start..start + n]),
    }
}

#[tactic(auto, unfolding(crate::specs::Message::length_in))]
fn length_in(sending: bool, w: u32) -> Option<usize>
    ensures { result ≡ length_in sending (flag FDF w) (read DLC w) }
{
    if sending {
        return length_of(w);
    }
    Some(received_length_of(w))
}

// An object to send or received, with a timestamp or without; any bytes may follow it.
#[tactic(auto, using(crate::proofs::Checks::in_le), unfolding(crate::specs::Message::decoding))]
pub fn decode(sending: bool, stamped: bool, b: &[u8]) -> Result<Frame, Undecoded>
    ensures { result ≡ decoded_as (decoding sending stamped b.now) }
{
    let start = body_at(stamped);
    if b.len() < start {
        return Err(Undecoded::Short);
    }
    let n = length_in(sending, words::le_at(b, 4)).ok_or(Undecoded::NoFrame)?;
    if b.len() < start + n {
        return Err(Undecoded::Short);
    }
    Ok(frame_in(sending, stamped, start, n, b))
}
