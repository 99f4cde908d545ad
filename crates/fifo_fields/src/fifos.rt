// CiFIFOCON and CiFIFOSTA, and what CiTXQCON and CiTXQSTA share with them.
use fifo::{ControlWord, FifoControl, FifoStatus, StatusWord};
use named::{fitting, flag};

// A field of either control word. `fifo_size` is FSIZE + 1.
pub(crate) fn shared_control<R: ControlWord>(r: R, name: &[u8]) -> Option<u32> {
    match name {
        b"txatie" => Some(r.txatie() as u32),
        b"txen" => Some(r.txen() as u32),
        b"uinc" => Some(r.uinc() as u32),
        b"txreq" => Some(r.txreq() as u32),
        b"freset" => Some(r.freset() as u32),
        b"txpri" => Some(r.txpri()),
        b"txat" => Some(r.txat()),
        b"plsize" => Some(r.plsize()),
        b"fifo_size" => Some(r.fifo_size()),
        _ => None,
    }
}

// A size's values begin with 1, and one above 32 is set as 32.
pub(crate) fn with_shared_control<R: ControlWord>(r: R, name: &[u8], v: u32) -> Option<R> {
    match name {
        b"txatie" => Some(r.with_txatie(flag(v)?)),
        b"txen" => Some(r.with_txen(flag(v)?)),
        b"uinc" => Some(r.with_uinc(flag(v)?)),
        b"txreq" => Some(r.with_txreq(flag(v)?)),
        b"freset" => Some(r.with_freset(flag(v)?)),
        b"txpri" => Some(r.with_txpri(fitting(v, 5)?)),
        b"txat" => Some(r.with_txat(fitting(v, 2)?)),
        b"plsize" => Some(r.with_plsize(fitting(v, 3)?)),
        b"fifo_size" if v != 0 => Some(r.with_fifo_size(v)),
        _ => None,
    }
}

pub fn control(w: u32, name: &[u8]) -> Option<u32> {
    let r = FifoControl(w);
    match name {
        b"tfnrfnie" => Some(r.tfnrfnie() as u32),
        b"tfhrfhie" => Some(r.tfhrfhie() as u32),
        b"tferffie" => Some(r.tferffie() as u32),
        b"rxovie" => Some(r.rxovie() as u32),
        b"rxtsen" => Some(r.rxtsen() as u32),
        b"rtren" => Some(r.rtren() as u32),
        _ => shared_control(r, name),
    }
}

pub fn with_control(w: u32, name: &[u8], v: u32) -> Option<u32> {
    let r = FifoControl(w);
    let set = match name {
        b"tfnrfnie" => r.with_tfnrfnie(flag(v)?),
        b"tfhrfhie" => r.with_tfhrfhie(flag(v)?),
        b"tferffie" => r.with_tferffie(flag(v)?),
        b"rxovie" => r.with_rxovie(flag(v)?),
        b"rxtsen" => r.with_rxtsen(flag(v)?),
        b"rtren" => r.with_rtren(flag(v)?),
        _ => with_shared_control(r, name, v)?,
    };
    Some(set.0)
}

// A field of either status word.
pub(crate) fn shared_status<R: StatusWord>(r: R, name: &[u8]) -> Option<u32> {
    match name {
        b"txatif" => Some(r.txatif() as u32),
        b"txerr" => Some(r.txerr() as u32),
        b"txlarb" => Some(r.txlarb() as u32),
        b"txabt" => Some(r.txabt() as u32),
        _ => None,
    }
}

pub(crate) fn with_shared_status<R: StatusWord>(r: R, name: &[u8], v: u32) -> Option<R> {
    match name {
        b"txatif" => Some(r.with_txatif(flag(v)?)),
        b"txerr" => Some(r.with_txerr(flag(v)?)),
        b"txlarb" => Some(r.with_txlarb(flag(v)?)),
        b"txabt" => Some(r.with_txabt(flag(v)?)),
        _ => None,
    }
}

pub fn status(w: u32, name: &[u8]) -> Option<u32> {
    let r = FifoStatus(w);
    match name {
        b"tfnrfnif" => Some(r.tfnrfnif() as u32),
        b"tfhrfhif" => Some(r.tfhrfhif() as u32),
        b"tferffif" => Some(r.tferffif() as u32),
        b"rxovif" => Some(r.rxovif() as u32),
        b"fifoci" => Some(r.fifoci()),
        _ => shared_status(r, name),
    }
}

pub fn with_status(w: u32, name: &[u8], v: u32) -> Option<u32> {
    let r = FifoStatus(w);
    let set = match name {
        b"tfnrfnif" => r.with_tfnrfnif(flag(v)?),
        b"tfhrfhif" => r.with_tfhrfhif(flag(v)?),
        b"tferffif" => r.with_tferffif(flag(v)?),
        b"rxovif" => r.with_rxovif(flag(v)?),
        b"fifoci" => r.with_fifoci(fitting(v, 5)?),
        _ => with_shared_status(r, name, v)?,
    };
    Some(set.0)
}
