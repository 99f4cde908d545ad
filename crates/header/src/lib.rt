// The first two words of an object: identifier, kind, flags, DLC and SEQ.
#![tactic(auto)]

ghost use Rattle.std.specs.Prelude.{◌≡◌, ◌<◌, ◌≤◌, ◌^◌};
ghost use Rattle.field.specs.Field.{read, flag, Fits};
ghost use Rattle.field.specs.Settings.{settings};
ghost use Rattle.header.specs.Header.{SEQ, FILHIT, DLC, FDF, top_id, sid_of, eid_of, id_in, word0, kind1, word1, received1, header_of};
ghost use Rattle.header.specs.Dlc.{length_of, received_length};

mod dlc;

pub use dlc::{LENGTHS, dlc_for_len, len_for_dlc, received_len};

#[derive(Clone, Copy)]
pub struct Header {
    pub extended: bool,
    pub id: u32,
    pub rtr: bool,
    pub brs: bool,
    pub fdf: bool,
    pub esi: bool,
}

// The largest identifier.
pub fn top_id(extended: bool) -> u32
    ensures { result ≡ top_id extended }
{
    if extended { 0x1FFF_FFFF } else { 0x7FF }
}

// An extended identifier gives SID its top 11 bits and EID its low 18; a standard one is SID, and EID is 0.
pub fn sid_of(extended: bool, id: u32) -> u32
    requires { id ≤ top_id extended }
    ensures { (result ≡ sid_of extended id) × (result < 2 ^ 11) }
{
    if extended { id >> 18 } else { id }
}

pub fn eid_of(extended: bool, id: u32) -> u32
    ensures { (result ≡ eid_of extended id) × (result < 2 ^ 18) }
{
    if extended { id % 0x4_0000 } else { 0 }
}

#[tactic(auto, unfolding(crate::specs::Header::word0))]
pub fn first_word(h: Header) -> u32
    requires { h.id ≤ top_id h.extended }
    ensures { result ≡ word0 h }
{
    let sid = field::set(0, 0, 11, sid_of(h.extended, h.id));
    field::set(sid, 11, 18, eid_of(h.extended, h.id))
}

// What the second word of every object has: the DLC, the kind and the flags.
fn kind_word(h: Header, dlc: u32) -> u32
    requires { Fits DLC dlc }
    ensures { result ≡ settings (kind1 h dlc) 0 }
{
    let a = field::set(0, 0, 4, dlc);
    let b = field::set_bit(a, 4, h.extended);
    let c = field::set_bit(b, 5, h.rtr);
    let d = field::set_bit(c, 6, h.brs);
    let e = field::set_bit(d, 7, h.fdf);
    field::set_bit(e, 8, h.esi)
}

// Of an object to send.
#[tactic(auto, unfolding(crate::specs::Header::word1))]
pub fn second_word(h: Header, seq: u32, dlc: u32) -> u32
    requires { Fits DLC dlc × Fits SEQ seq }
    ensures { result ≡ word1 h seq dlc }
{
    field::set(kind_word(h, dlc), 9, 23, seq)
}

// Of an object received: FILHIT has the number of the filter that took it.
#[tactic(auto, unfolding(crate::specs::Header::received1))]
pub fn received_word(h: Header, dlc: u32, hit: u32) -> u32
    requires { Fits DLC dlc × Fits FILHIT hit }
    ensures { result ≡ received1 h dlc hit }
{
    field::set(kind_word(h, dlc), 11, 5, hit)
}

fn identifier(extended: bool, w: u32) -> u32
    ensures { result ≡ id_in extended w }
{
    let sid = field::get(w, 0, 11);
    if extended {
        sid * 0x4_0000 + field::get(w, 11, 18)
    } else {
        sid
    }
}

// The header that two words hold: reserved bits, and EID in a standard frame, are ignored.
#[tactic(auto, unfolding(crate::specs::Header::header_of))]
pub fn header_of(a: u32, b: u32) -> Header
    ensures { result ≡ header_of a b }
{
    let extended = field::bit(b, 4);
    Header {
        extended,
        id: identifier(extended, a),
        rtr: field::bit(b, 5),
        brs: field::bit(b, 6),
        fdf: field::bit(b, 7),
        esi: field::bit(b, 8),
    }
}

// The DLC that the second word has.
pub fn dlc_of(b: u32) -> u8
    ensures { (result ≡ read DLC b) × (result < 16) }
{
    field::get(b, 0, 4) as u8
}

// The filter that the second word of an object received names.
pub fn filter_of(b: u32) -> u8
    ensures { (result ≡ read FILHIT b) × (result < 32) }
{
    field::get(b, 11, 5) as u8
}

// The payload length that the second word means, of an object to send.
pub fn length_of(b: u32) -> Option<usize>
    ensures { result ≡ length_of (flag FDF b) (read DLC b) }
{
    len_for_dlc(dlc_of(b) as usize, field::bit(b, 7))
}

// Of one received.
pub fn received_length_of(b: u32) -> usize
    ensures { (result ≡ received_length (flag FDF b) (read DLC b)) × (result ≤ 64) }
{
    received_len(dlc_of(b) as usize, field::bit(b, 7))
}
