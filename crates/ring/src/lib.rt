// The FIFOs and the transmit queue of the modelled chip: what each changes and shows by itself, and where their slots lie in RAM.
#![tactic(auto)]

mod layout;
pub mod queue;
mod readings;
mod ring;
mod slots;

pub use layout::{Layout, size, stamped};
pub use queue::Queue;
pub use readings::{control, status};
pub use ring::{Fifo, claimed, depth, overflowed, place, sending, sent, shown};
pub use slots::{Slots, commanded, configured, turned};
