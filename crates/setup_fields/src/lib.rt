// The registers that `configure` writes and the fields of each, by their names, read and set with the port's methods: the data sheet's
// names, of fields in lower case, but for the Rust's `slckdiv`.
#![tactic(auto)]

mod controller;
mod interrupts;
mod pins;
mod timing;

use bit_timing::{DataBitTimeConfiguration, NominalBitTimeConfiguration};

// The field of a register with this word, none where there is no such register or field.
pub fn read(register: &[u8], name: &[u8], w: u32) -> Option<u32> {
    match register {
        b"CiCON" => controller::can_control(w, name),
        b"CiTSCON" => controller::time_stamp_control(w, name),
        b"CiINT" => interrupts::interrupts(w, name),
        b"CiNBTCFG" => timing::bit_time(NominalBitTimeConfiguration(w), name),
        b"CiDBTCFG" => timing::bit_time(DataBitTimeConfiguration(w), name),
        b"CiTDC" => timing::delay(w, name),
        b"OSC" => pins::oscillator(w, name),
        b"IOCON" => pins::pins(w, name),
        _ => None,
    }
}

// The word with the field set, none also where the value is too large.
pub fn with(register: &[u8], name: &[u8], v: u32, w: u32) -> Option<u32> {
    match register {
        b"CiCON" => controller::with_can_control(w, name, v),
        b"CiTSCON" => controller::with_time_stamp_control(w, name, v),
        b"CiINT" => interrupts::with_interrupts(w, name, v),
        b"CiNBTCFG" => Some(timing::with_bit_time(NominalBitTimeConfiguration(w), name, v)?.0),
        b"CiDBTCFG" => Some(timing::with_bit_time(DataBitTimeConfiguration(w), name, v)?.0),
        b"CiTDC" => timing::with_delay(w, name, v),
        b"OSC" => pins::with_oscillator(w, name, v),
        b"IOCON" => pins::with_pins(w, name, v),
        _ => None,
    }
}
