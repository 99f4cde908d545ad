// CiCON and CiTSCON.
use configuration::{CanControl, TimeStampControl};
use named::{fitting, flag};

pub fn can_control(w: u32, name: &[u8]) -> Option<u32> {
    let r = CanControl(w);
    Some(match name {
        b"dncnt" => r.dncnt(),
        b"isocrcen" => r.isocrcen() as u32,
        b"pxedis" => r.pxedis() as u32,
        b"wakfil" => r.wakfil() as u32,
        b"wft" => r.wft(),
        b"busy" => r.busy() as u32,
        b"brsdis" => r.brsdis() as u32,
        b"rtxat" => r.rtxat() as u32,
        b"esigm" => r.esigm() as u32,
        b"serr2lom" => r.serr2lom() as u32,
        b"stef" => r.stef() as u32,
        b"txqen" => r.txqen() as u32,
        b"opmod" => r.opmod(),
        b"reqop" => r.reqop(),
        b"abat" => r.abat() as u32,
        b"txbws" => r.txbws(),
        _ => return None,
    })
}

pub fn with_can_control(w: u32, name: &[u8], v: u32) -> Option<u32> {
    let r = CanControl(w);
    let set = match name {
        b"dncnt" => r.with_dncnt(fitting(v, 5)?),
        b"isocrcen" => r.with_isocrcen(flag(v)?),
        b"pxedis" => r.with_pxedis(flag(v)?),
        b"wakfil" => r.with_wakfil(flag(v)?),
        b"wft" => r.with_wft(fitting(v, 2)?),
        b"busy" => r.with_busy(flag(v)?),
        b"brsdis" => r.with_brsdis(flag(v)?),
        b"rtxat" => r.with_rtxat(flag(v)?),
        b"esigm" => r.with_esigm(flag(v)?),
        b"serr2lom" => r.with_serr2lom(flag(v)?),
        b"stef" => r.with_stef(flag(v)?),
        b"txqen" => r.with_txqen(flag(v)?),
        b"opmod" => r.with_opmod(fitting(v, 3)?),
        b"reqop" => r.with_reqop(fitting(v, 3)?),
        b"abat" => r.with_abat(flag(v)?),
        b"txbws" => r.with_txbws(fitting(v, 4)?),
        _ => return None,
    };
    Some(set.0)
}

pub fn time_stamp_control(w: u32, name: &[u8]) -> Option<u32> {
    let r = TimeStampControl(w);
    Some(match name {
        b"tbcpre" => r.tbcpre(),
        b"tbcen" => r.tbcen() as u32,
        b"tseof" => r.tseof() as u32,
        b"tsres" => r.tsres() as u32,
        _ => return None,
    })
}

pub fn with_time_stamp_control(w: u32, name: &[u8], v: u32) -> Option<u32> {
    let r = TimeStampControl(w);
    let set = match name {
        b"tbcpre" => r.with_tbcpre(fitting(v, 10)?),
        b"tbcen" => r.with_tbcen(flag(v)?),
        b"tseof" => r.with_tseof(flag(v)?),
        b"tsres" => r.with_tsres(flag(v)?),
        _ => return None,
    };
    Some(set.0)
}
