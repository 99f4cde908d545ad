// The controller's mode and its time base: CiCON and CiTSCON, each a type over its word.
#![tactic(auto)]

mod can_control;
mod time_stamp_control;

pub use can_control::CanControl;
pub use time_stamp_control::TimeStampControl;
