// The modelled chip's other side: the bus, and the messages that its FIFOs and its transmit queue hold.
#![tactic(auto)]

mod arrival;
mod departure;
mod held;
mod queue;
mod sorting;

pub use arrival::{Arrival, Delivered, Undelivered, deliver};
pub use departure::{Sent, Unsent, send};
pub use held::{held_at, held_len};
pub use queue::{queue_holds, queue_item, send_queue};
pub use sorting::{Sorted, sort};
