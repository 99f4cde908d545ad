// CiINT: a flag and an enable for each cause, whose names end in `if` and in `ie`.
use interrupt::{Cause, Interrupt};
use named::flag;

fn cause(stem: &[u8]) -> Option<Cause> {
    match stem {
        b"tx" => Some(Cause::Tx),
        b"rx" => Some(Cause::Rx),
        b"tbc" => Some(Cause::Tbc),
        b"mod" => Some(Cause::Mod),
        b"tef" => Some(Cause::Tef),
        b"ecc" => Some(Cause::Ecc),
        b"spicrc" => Some(Cause::SpiCrc),
        b"txat" => Some(Cause::TxAt),
        b"rxov" => Some(Cause::RxOv),
        b"serr" => Some(Cause::Serr),
        b"cerr" => Some(Cause::Cerr),
        b"wak" => Some(Cause::Wak),
        b"ivm" => Some(Cause::Ivm),
        _ => None,
    }
}

pub fn interrupts(w: u32, name: &[u8]) -> Option<u32> {
    let r = Interrupt(w);
    match name {
        [stem @ .., b'i', b'f'] => Some(r.flagged(cause(stem)?) as u32),
        [stem @ .., b'i', b'e'] => Some(r.enabled(cause(stem)?) as u32),
        _ => None,
    }
}

pub fn with_interrupts(w: u32, name: &[u8], v: u32) -> Option<u32> {
    let r = Interrupt(w);
    let set = match name {
        [stem @ .., b'i', b'f'] => r.with_flagged(cause(stem)?, flag(v)?),
        [stem @ .., b'i', b'e'] => r.with_enabled(cause(stem)?, flag(v)?),
        _ => return None,
    };
    Some(set.0)
}
