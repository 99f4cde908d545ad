// Messages, and the objects that they are in RAM.
#![tactic(auto)]

mod arrived;
mod object;
mod rx;
mod tx;

pub use arrived::{arrive, check_arrival};
pub use object::clear;
pub use rx::{Frame, Payload, Undecoded, decode};
pub use tx::encode;
