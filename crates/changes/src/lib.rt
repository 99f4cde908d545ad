// What the mode, oscillator, IO and bit timing calls and `configure` are given, and the changes of registers that they make.
#![tactic(auto)]

mod changes;
mod settings;

pub use changes::{
    counter_change, data_bits, data_change, delay_bits, delay_change, dncnt_bits, dncnt_change,
    interrupt_bits, interrupt_change, io_bits, io_change, mode_bits, mode_change, nominal_bits,
    nominal_change, oscillator_bits, oscillator_change, rtxat_change, settings_fit, stef_change,
    timing_fits, txqen_change,
};
pub use settings::{
    BitTimeConfiguration, DataBitTime, IoConfiguration, NominalBitTime, OscillatorConfiguration,
    Settings,
};
