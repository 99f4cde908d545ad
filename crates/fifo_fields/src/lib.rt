// The registers of FIFOs, of filters and of the transmit queue, as `setup_fields` has the others: the data sheet's names, but for
// `fifo_size`, FSIZE + 1, and the Rust's `fifoua` in CiTXQUA.
#![tactic(auto)]

mod fifos;
mod filters;
mod queue;

use fifo::{TxQueueUserAddress, UserAddress, UserAddressWord};

fn user_address<R: UserAddressWord>(r: R, name: &[u8]) -> Option<u32> {
    match name {
        b"fifoua" => Some(r.fifoua()),
        _ => None,
    }
}

fn with_user_address<R: UserAddressWord>(r: R, name: &[u8], v: u32) -> Option<R> {
    match name {
        b"fifoua" => Some(r.with_fifoua(v)),
        _ => None,
    }
}

// The field of a register with this word, none where there is no such register or field.
pub fn read(register: &[u8], name: &[u8], w: u32) -> Option<u32> {
    match register {
        b"CiFIFOCON" => fifos::control(w, name),
        b"CiFIFOSTA" => fifos::status(w, name),
        b"CiFIFOUA" => user_address(UserAddress(w), name),
        b"CiFLTCON" => filters::control(w, name),
        b"CiFLTOBJ" => filters::object(w, name),
        b"CiMASK" => filters::mask(w, name),
        b"CiTXQCON" => queue::control(w, name),
        b"CiTXQSTA" => queue::status(w, name),
        b"CiTXQUA" => user_address(TxQueueUserAddress(w), name),
        _ => None,
    }
}

// The word with the field set, none also where the value is too large.
pub fn with(register: &[u8], name: &[u8], v: u32, w: u32) -> Option<u32> {
    match register {
        b"CiFIFOCON" => fifos::with_control(w, name, v),
        b"CiFIFOSTA" => fifos::with_status(w, name, v),
        b"CiFIFOUA" => Some(with_user_address(UserAddress(w), name, v)?.0),
        b"CiFLTCON" => filters::with_control(w, name, v),
        b"CiFLTOBJ" => filters::with_object(w, name, v),
        b"CiMASK" => filters::with_mask(w, name, v),
        b"CiTXQCON" => queue::with_control(w, name, v),
        b"CiTXQSTA" => queue::with_status(w, name, v),
        b"CiTXQUA" => Some(with_user_address(TxQueueUserAddress(w), name, v)?.0),
        _ => None,
    }
}
