// A push and a request as one call on a FIFO that sends.
#![tactic(auto)]

mod transmit;

pub use transmit::{
    RequestStage, TransmitNumbers, accepted, transmit_ask, transmit_outcome, transmit_start,
    transmit_step,
};
