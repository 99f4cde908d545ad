// What the driver and the line say to each other: instructions, asks and their bytes, answers and what they say, the RAM that
// an access may touch, and why a call is refused.
#![tactic(auto)]

mod ask;
mod instruction;
mod range;
mod refusal;
mod reply;

pub use ask::{Answer, Ask, Exchange, exchange_of, read_word};
pub use instruction::{OpCode, checked_read, command, write_word};
pub use range::{in_ram, in_range, ram_address, read_access, write_access};
pub use refusal::Refusal;
pub use reply::{CheckedWord, crc_reply, done_reply, pair_reply, wait_reply, word_reply};
