// OSC and IOCON.
use chip::{IoControl, OscillatorControl};
use named::{fitting, flag};

pub fn oscillator(w: u32, name: &[u8]) -> Option<u32> {
    let r = OscillatorControl(w);
    Some(match name {
        b"pllen" => r.pllen() as u32,
        b"oscdis" => r.oscdis() as u32,
        b"lpmen" => r.lpmen() as u32,
        b"slckdiv" => r.sclkdiv() as u32,
        b"clkodiv" => r.clkodiv(),
        b"pllrdy" => r.pllrdy() as u32,
        b"oscrdy" => r.oscrdy() as u32,
        b"sclkrdy" => r.sclkrdy() as u32,
        _ => return None,
    })
}

pub fn with_oscillator(w: u32, name: &[u8], v: u32) -> Option<u32> {
    let r = OscillatorControl(w);
    let set = match name {
        b"pllen" => r.with_pllen(flag(v)?),
        b"oscdis" => r.with_oscdis(flag(v)?),
        b"lpmen" => r.with_lpmen(flag(v)?),
        b"slckdiv" => r.with_sclkdiv(flag(v)?),
        b"clkodiv" => r.with_clkodiv(fitting(v, 2)?),
        b"pllrdy" => r.with_pllrdy(flag(v)?),
        b"oscrdy" => r.with_oscrdy(flag(v)?),
        b"sclkrdy" => r.with_sclkrdy(flag(v)?),
        _ => return None,
    };
    Some(set.0)
}

pub fn pins(w: u32, name: &[u8]) -> Option<u32> {
    let r = IoControl(w);
    let on = match name {
        [b't', b'r', b'i', b's', k @ b'0'..=b'1'] => r.tris(*k - b'0'),
        [b'l', b'a', b't', k @ b'0'..=b'1'] => r.lat(*k - b'0'),
        [b'g', b'p', b'i', b'o', k @ b'0'..=b'1'] => r.gpio(*k - b'0'),
        [b'p', b'm', k @ b'0'..=b'1'] => r.pm(*k - b'0'),
        b"xstbyen" => r.xstbyen(),
        b"txcanod" => r.txcanod(),
        b"sof" => r.sof(),
        b"intod" => r.intod(),
        _ => return None,
    };
    Some(on as u32)
}

pub fn with_pins(w: u32, name: &[u8], v: u32) -> Option<u32> {
    let r = IoControl(w);
    let on = flag(v)?;
    let set = match name {
        [b't', b'r', b'i', b's', k @ b'0'..=b'1'] => r.with_tris(*k - b'0', on),
        [b'l', b'a', b't', k @ b'0'..=b'1'] => r.with_lat(*k - b'0', on),
        [b'g', b'p', b'i', b'o', k @ b'0'..=b'1'] => r.with_gpio(*k - b'0', on),
        [b'p', b'm', k @ b'0'..=b'1'] => r.with_pm(*k - b'0', on),
        b"xstbyen" => r.with_xstbyen(on),
        b"txcanod" => r.with_txcanod(on),
        b"sof" => r.with_sof(on),
        b"intod" => r.with_intod(on),
        _ => return None,
    };
    Some(set.0)
}
