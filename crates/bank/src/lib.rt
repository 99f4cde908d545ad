// The modelled chip's registers: how they read, and what writing them does.
#![tactic(auto)]

mod readout;
mod writing;

pub use readout::{shown_at, word};
pub use writing::{Written, registered};
