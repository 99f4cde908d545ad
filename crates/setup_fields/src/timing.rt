// CiNBTCFG, CiDBTCFG and CiTDC.
use bit_timing::{BitTime, TransmitterDelayCompensation, signed};
use named::{fitting, flag};

// CiNBTCFG or CiDBTCFG.
pub(crate) fn bit_time<R: BitTime>(r: R, name: &[u8]) -> Option<u32> {
    match name {
        b"sjw" => Some(r.sjw()),
        b"tseg2" => Some(r.tseg2()),
        b"tseg1" => Some(r.tseg1()),
        b"brp" => Some(r.brp()),
        _ => None,
    }
}

pub(crate) fn with_bit_time<R: BitTime>(r: R, name: &[u8], v: u32) -> Option<R> {
    match name {
        b"sjw" => Some(r.with_sjw(fitting(v, R::BITS)?)),
        b"tseg2" => Some(r.with_tseg2(fitting(v, R::BITS)?)),
        b"tseg1" => Some(r.with_tseg1(fitting(v, R::BITS + 1)?)),
        b"brp" => Some(r.with_brp(fitting(v, 8)?)),
        _ => None,
    }
}

// TDCO is told by its seven bits.
pub fn delay(w: u32, name: &[u8]) -> Option<u32> {
    let r = TransmitterDelayCompensation(w);
    Some(match name {
        b"tdcv" => r.tdcv(),
        b"tdco" => signed::seven(r.tdco()),
        b"tdcmod" => r.tdcmod(),
        b"sid11en" => r.sid11en() as u32,
        b"edgflten" => r.edgflten() as u32,
        _ => return None,
    })
}

pub fn with_delay(w: u32, name: &[u8], v: u32) -> Option<u32> {
    let r = TransmitterDelayCompensation(w);
    let set = match name {
        b"tdcv" => r.with_tdcv(fitting(v, 6)?),
        b"tdco" => r.with_tdco(signed::number(fitting(v, 7)?)),
        b"tdcmod" => r.with_tdcmod(fitting(v, 2)?),
        b"sid11en" => r.with_sid11en(flag(v)?),
        b"edgflten" => r.with_edgflten(flag(v)?),
        _ => return None,
    };
    Some(set.0)
}
