// What the calls of a FIFO, the transmit queue and a filter are given, and the changes of registers that they make.
#![tactic(auto)]

mod areas;
mod settings;

pub use areas::{
    enable_change, fifo_change, fifo_fits, filter_check, mask_bits, mask_change, object_bits,
    object_change, off_change, on_bits, on_change, queue_bits, queue_change, queue_fits,
    request_change,
};
pub use settings::{
    FifoConfiguration, FifoMode, FilterConfiguration, FilterMode, Identifier, RxFifo, TxFifo,
    TxQueueConfiguration,
};
