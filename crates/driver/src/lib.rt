// The driver. A call is a value: `next` says what it asks for and puts the bytes to send together, `answer` takes what came back and
// gives the next value, until `next` says that it is over; `finish` says how it ended and fills the lent buffer. All that its user
// names is here.
#![tactic(auto)]

mod begin;
mod count;
mod door;
mod lent;

pub use areas::{
    FifoConfiguration, FifoMode, FilterConfiguration, FilterMode, Identifier, RxFifo, TxFifo,
    TxQueueConfiguration,
};
pub use begin::{
    checked_read, configure, configure_bit_timing, configure_fifo, configure_filter, configure_io,
    configure_osc, configure_tx_queue, disable_filter, get, get_op_mode, has_next, modify_register,
    peek, push, queue_push, queue_push_unchecked, queue_request, read_ram, read_register, request,
    reset, scrub, set_op_mode, transmit, verify, verify_long, write_ram, write_register,
};
pub use call::{Found, Outcome, Report, Rewrite};
pub use changes::{
    BitTimeConfiguration, DataBitTime, IoConfiguration, NominalBitTime, OscillatorConfiguration,
    Settings,
};
use configure::PlanNumbers;
pub use door::{accepted, answer, body_of, finish, next, numbers_of, scrubber, turns};
use fetch::FetchNumbers;
pub use header::Header;
pub use lent::{answer_lent, finish_lent, next_lent};
pub use numbers::number;
use ram::RamNumbers;
use register::RegisterNumbers;
use scrub::ScrubNumbers;
pub use send::Next;
pub use spi::{Answer, Refusal};
use transmit::TransmitNumbers;
use tx_fifo::PushNumbers;
pub use watch::{Scrubber, Watch};

// The families of calls, each with its own numbers.
#[derive(Clone, Copy)]
enum Family {
    Register(RegisterNumbers),
    Ram(RamNumbers),
    Plan(PlanNumbers),
    Push(PushNumbers),
    Transmit(TransmitNumbers),
    Fetch(FetchNumbers),
    Scrub(ScrubNumbers),
}

// A call without its bytes. Nobody outside makes one by hand.
#[derive(Clone, Copy)]
pub struct Numbers {
    family: Family,
}

// A call: its numbers, and its own bytes (the object to send, the payload received, or the bits that a plan sets).
#[derive(Clone, Copy)]
pub struct Call {
    numbers: Numbers,
    body: [u8; 76],
}
