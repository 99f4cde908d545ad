// CiTXQCON and CiTXQSTA.
use crate::fifos::{shared_control, shared_status, with_shared_control, with_shared_status};
use fifo::{TxQueueControl, TxQueueStatus};
use named::{fitting, flag};

pub fn control(w: u32, name: &[u8]) -> Option<u32> {
    let r = TxQueueControl(w);
    match name {
        b"txqnie" => Some(r.txqnie() as u32),
        b"txqeie" => Some(r.txqeie() as u32),
        _ => shared_control(r, name),
    }
}

pub fn with_control(w: u32, name: &[u8], v: u32) -> Option<u32> {
    let r = TxQueueControl(w);
    let set = match name {
        b"txqnie" => r.with_txqnie(flag(v)?),
        b"txqeie" => r.with_txqeie(flag(v)?),
        _ => with_shared_control(r, name, v)?,
    };
    Some(set.0)
}

pub fn status(w: u32, name: &[u8]) -> Option<u32> {
    let r = TxQueueStatus(w);
    match name {
        b"txqnif" => Some(r.txqnif() as u32),
        b"txqeif" => Some(r.txqeif() as u32),
        b"txqci" => Some(r.txqci()),
        _ => shared_status(r, name),
    }
}

pub fn with_status(w: u32, name: &[u8], v: u32) -> Option<u32> {
    let r = TxQueueStatus(w);
    let set = match name {
        b"txqnif" => r.with_txqnif(flag(v)?),
        b"txqeif" => r.with_txqeif(flag(v)?),
        b"txqci" => r.with_txqci(fitting(v, 5)?),
        _ => with_shared_status(r, name, v)?,
    };
    Some(set.0)
}
