// The registers of the chip itself: OSC and IOCON, each a type over its word.
#![tactic(auto)]

mod io_control;
mod oscillator_control;

pub use io_control::IoControl;
pub use oscillator_control::OscillatorControl;
