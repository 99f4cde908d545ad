// The calls by which a FIFO that sends, or the transmit queue, is given a message.
#![tactic(auto)]

mod push;

pub use push::{
    PushNumbers, PushStage, push_ask, push_done, push_outcome, push_start, push_step,
    queue_push_start, queue_unchecked_start,
};
