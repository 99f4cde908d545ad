// Bit times and delay compensation: CiNBTCFG, CiDBTCFG and CiTDC, each a type over its word.
#![tactic(auto)]

mod bit_time;
mod data;
mod delay;
mod nominal;
pub mod signed;

pub use bit_time::BitTime;
pub use data::DataBitTimeConfiguration;
pub use delay::TransmitterDelayCompensation;
pub use nominal::NominalBitTimeConfiguration;
