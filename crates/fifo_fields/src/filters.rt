// CiFLTCON, CiFLTOBJ and CiMASK.
use filter::{FilterControl, FilterMask, FilterObject};
use named::{fitting, flag};

pub fn object(w: u32, name: &[u8]) -> Option<u32> {
    let r = FilterObject(w);
    Some(match name {
        b"sid" => r.sid(),
        b"eid" => r.eid(),
        b"sid11" => r.sid11() as u32,
        b"exide" => r.exide() as u32,
        _ => return None,
    })
}

pub fn with_object(w: u32, name: &[u8], v: u32) -> Option<u32> {
    let r = FilterObject(w);
    let set = match name {
        b"sid" => r.with_sid(fitting(v, 11)?),
        b"eid" => r.with_eid(fitting(v, 18)?),
        b"sid11" => r.with_sid11(flag(v)?),
        b"exide" => r.with_exide(flag(v)?),
        _ => return None,
    };
    Some(set.0)
}

pub fn mask(w: u32, name: &[u8]) -> Option<u32> {
    let r = FilterMask(w);
    Some(match name {
        b"msid" => r.msid(),
        b"meid" => r.meid(),
        b"msid11" => r.msid11() as u32,
        b"mide" => r.mide() as u32,
        _ => return None,
    })
}

pub fn with_mask(w: u32, name: &[u8], v: u32) -> Option<u32> {
    let r = FilterMask(w);
    let set = match name {
        b"msid" => r.with_msid(fitting(v, 11)?),
        b"meid" => r.with_meid(fitting(v, 18)?),
        b"msid11" => r.with_msid11(flag(v)?),
        b"mide" => r.with_mide(flag(v)?),
        _ => return None,
    };
    Some(set.0)
}

// The targets of four filters, and their enables.
pub fn control(w: u32, name: &[u8]) -> Option<u32> {
    let r = FilterControl(w);
    Some(match name {
        [b'f', k @ b'0'..=b'3', b'b', b'p'] => r.target(*k - b'0'),
        [b'f', b'l', b't', b'e', b'n', k @ b'0'..=b'3'] => r.enabled(*k - b'0') as u32,
        _ => return None,
    })
}

pub fn with_control(w: u32, name: &[u8], v: u32) -> Option<u32> {
    let r = FilterControl(w);
    let set = match name {
        [b'f', k @ b'0'..=b'3', b'b', b'p'] => r.with_target(*k - b'0', fitting(v, 5)?),
        [b'f', b'l', b't', b'e', b'n', k @ b'0'..=b'3'] => r.with_enabled(*k - b'0', flag(v)?),
        _ => return None,
    };
    Some(set.0)
}
