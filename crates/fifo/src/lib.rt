// The registers of a FIFO and of the transmit queue: control, status and user address, each a type over its word.
#![tactic(auto)]

mod control;
mod status;
mod tx_queue_control;
mod tx_queue_status;
mod tx_queue_user_address;
mod user_address;

pub use control::{ControlWord, FifoControl, PLSIZE, is_fifo, payload_bytes};
pub use status::{FifoStatus, StatusWord};
pub use tx_queue_control::TxQueueControl;
pub use tx_queue_status::TxQueueStatus;
pub use tx_queue_user_address::TxQueueUserAddress;
pub use user_address::{UserAddress, UserAddressWord};
