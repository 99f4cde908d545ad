// The calls: one function for each, which starts it. Any number may be given: what is refused is refused before any exchange, and the
// call is then over.
ghost use Rattle.std.specs.Prelude.{◌≡◌};
ghost use Rattle.driver.specs.Calls.{Modify, Verify, SetOpMode, Osc, Io, BitTiming, Fifo, Queue, Filter, FilterOff, Configure, Reset, OpMode, VerifyLong, Read, Checked, Write, ReadRam, WriteRam, Planned, Push, Transmit, Request, QueuePush, QueueUnchecked, QueueRequest, HasNext, Peek, Get, Scrub, fifo_number, started};
ghost use Rattle.driver.specs.Numbers.{call_of, model_in};

use crate::{Call, Family, Numbers};
use areas::{FifoConfiguration, FilterConfiguration, TxQueueConfiguration};
use changes::{BitTimeConfiguration, IoConfiguration, OscillatorConfiguration, Settings};
use header::Header;
use watch::{Scrubber, Watch};

fn fifo_number(n: u32) -> u8
    ensures { result ≡ fifo_number n }
{
    u8::try_from(n).unwrap_or(0)
}

#[tactic(auto, unfolding(crate::specs::Numbers::call_of, crate::specs::Numbers::model_of))]
fn begun(family: Family, body: [u8; 76]) -> Call
    ensures { call_of result ≡ model_in family body }
{
    let numbers = Numbers { family };
    Call { numbers, body }
}

// The chip is reset.
pub fn reset() -> Call
    ensures { call_of result ≡ started Reset }
{
    begun(Family::Register(register::reset_start()), [0u8; 76])
}

// The word of a register.
pub fn read_register(address: u32) -> Call
    ensures { call_of result ≡ started (Read address) }
{
    begun(Family::Register(register::read_start(address)), [0u8; 76])
}

pub fn write_register(address: u32, word: u32) -> Call
    ensures { call_of result ≡ started (Write address word) }
{
    begun(
        Family::Register(register::write_start(address, word)),
        [0u8; 76],
    )
}

// The word of a register, in at most three checked reads, and how many of them mismatched before it.
pub fn checked_read(address: u32) -> Call
    ensures { call_of result ≡ started (Checked address) }
{
    begun(
        Family::Register(register::checked_start(address)),
        [0u8; 76],
    )
}

// The mode that CiCON shows.
pub fn get_op_mode() -> Call
    ensures { call_of result ≡ started OpMode }
{
    begun(Family::Register(register::get_op_mode_start()), [0u8; 76])
}

// `room` is the length of the buffer that will be lent to `finish`; `count` bytes go to its part from `place` on.
pub fn read_ram(address: u32, room: usize, place: usize, count: usize) -> Call
    ensures { call_of result ≡ started (ReadRam address room place count) }
{
    begun(
        Family::Ram(ram::read_ram_start(address, room, place, count)),
        [0u8; 76],
    )
}

// `count` is how many bytes will be lent to `next`.
pub fn write_ram(address: u32, count: usize) -> Call
    ensures { call_of result ≡ started (WriteRam address count) }
{
    begun(Family::Ram(ram::write_ram_start(address, count)), [0u8; 76])
}

// The long echo test: 32 words through RAM at once.
pub fn verify_long() -> Call
    ensures { call_of result ≡ started VerifyLong }
{
    begun(Family::Ram(ram::verify_long_start()), [0u8; 76])
}

// The word read, without the bits of `clear`, with those of `set`, is written back.
pub fn modify_register(address: u32, clear: u32, set: u32) -> Call
    ensures { call_of result ≡ started (Planned (Modify address clear set)) }
{
    begun(
        Family::Plan(configure::modify(address, clear, set)),
        [0u8; 76],
    )
}

// The short echo test: each bit by itself through the RAM's first word.
pub fn verify() -> Call
    ensures { call_of result ≡ started (Planned Verify) }
{
    begun(Family::Plan(configure::verify()), [0u8; 76])
}

pub fn set_op_mode(mode: u32) -> Call
    ensures { call_of result ≡ started (Planned (SetOpMode mode)) }
{
    begun(Family::Plan(configure::set_op_mode(mode)), [0u8; 76])
}

pub fn configure_osc(c: OscillatorConfiguration) -> Call
    ensures { call_of result ≡ started (Planned (Osc c)) }
{
    begun(Family::Plan(configure::configure_osc(c)), [0u8; 76])
}

pub fn configure_io(c: IoConfiguration) -> Call
    ensures { call_of result ≡ started (Planned (Io c)) }
{
    begun(Family::Plan(configure::configure_io(c)), [0u8; 76])
}

pub fn configure_bit_timing(c: BitTimeConfiguration) -> Call
    ensures { call_of result ≡ started (Planned (BitTiming c)) }
{
    let mut body = [0u8; 76];
    let p = configure::configure_bit_timing(c, &mut body);
    begun(Family::Plan(p), body)
}

pub fn configure_fifo(fifo: u32, c: FifoConfiguration) -> Call
    ensures { call_of result ≡ started (Planned (Fifo fifo c)) }
{
    begun(Family::Plan(configure::configure_fifo(fifo, c)), [0u8; 76])
}

// The transmit queue off, or on.
pub fn configure_tx_queue(c: Option<TxQueueConfiguration>) -> Call
    ensures { call_of result ≡ started (Planned (Queue c)) }
{
    let mut body = [0u8; 76];
    let p = configure::configure_tx_queue(c, &mut body);
    begun(Family::Plan(p), body)
}

pub fn configure_filter(filter: u32, c: FilterConfiguration) -> Call
    ensures { call_of result ≡ started (Planned (Filter filter c)) }
{
    let mut body = [0u8; 76];
    let p = configure::configure_filter(filter, c, &mut body);
    begun(Family::Plan(p), body)
}

pub fn disable_filter(filter: u32) -> Call
    ensures { call_of result ≡ started (Planned (FilterOff filter)) }
{
    begun(Family::Plan(configure::disable_filter(filter)), [0u8; 76])
}

// All but FIFOs and filters.
pub fn configure(s: Settings) -> Call
    ensures { call_of result ≡ started (Planned (Configure s)) }
{
    let mut body = [0u8; 76];
    let p = configure::configure_all(s, &mut body);
    begun(Family::Plan(p), body)
}

pub fn request(fifo: u32) -> Call
    ensures { call_of result ≡ started (Request fifo) }
{
    begun(Family::Plan(configure::request(fifo)), [0u8; 76])
}

pub fn push(fifo: u32, header: Header, seq: u32, payload: &[u8]) -> Call
    ensures { call_of result ≡ started (Push fifo header seq payload.now) }
{
    let mut body = [0u8; 76];
    let p = tx_fifo::push_start(fifo_number(fifo), header, seq, payload, &mut body);
    begun(Family::Push(p), body)
}

// A push to the transmit queue.
pub fn queue_push(header: Header, seq: u32, payload: &[u8]) -> Call
    ensures { call_of result ≡ started (QueuePush header seq payload.now) }
{
    let mut body = [0u8; 76];
    let p = tx_fifo::queue_push_start(header, seq, payload, &mut body);
    begun(Family::Push(p), body)
}

// One that tests neither whether the queue is on nor its room: a message that it holds may be overwritten.
pub fn queue_push_unchecked(header: Header, seq: u32, payload: &[u8]) -> Call
    ensures { call_of result ≡ started (QueueUnchecked header seq payload.now) }
{
    let mut body = [0u8; 76];
    let p = tx_fifo::queue_unchecked_start(header, seq, payload, &mut body);
    begun(Family::Push(p), body)
}

// The queue is to send what it holds.
pub fn queue_request() -> Call
    ensures { call_of result ≡ started QueueRequest }
{
    begun(Family::Plan(configure::queue_request()), [0u8; 76])
}

// A push, and where it is done a request.
pub fn transmit(fifo: u32, header: Header, seq: u32, payload: &[u8]) -> Call
    ensures { call_of result ≡ started (Transmit fifo header seq payload.now) }
{
    let mut body = [0u8; 76];
    let p = transmit::transmit_start(fifo_number(fifo), header, seq, payload, &mut body);
    begun(Family::Transmit(p), body)
}

pub fn has_next(fifo: u32) -> Call
    ensures { call_of result ≡ started (HasNext fifo) }
{
    let mut body = [0u8; 76];
    let p = rx_fifo::has_next_start(fifo_number(fifo), &mut body);
    begun(Family::Fetch(p), body)
}

// `room` is the length of the buffer that will be lent to `finish` for the payload: 64 or more.
pub fn peek(fifo: u32, room: usize) -> Call
    ensures { call_of result ≡ started (Peek fifo room) }
{
    let mut body = [0u8; 76];
    let p = rx_fifo::peek_start(fifo_number(fifo), room, &mut body);
    begun(Family::Fetch(p), body)
}

// As a peek, and the message is taken from the FIFO.
pub fn get(fifo: u32, room: usize) -> Call
    ensures { call_of result ≡ started (Get fifo room) }
{
    let mut body = [0u8; 76];
    let p = rx_fifo::get_start(fifo_number(fifo), room, &mut body);
    begun(Family::Fetch(p), body)
}

// One step of a scrubber over a list: the register that is due is read, checked, and its cared-for bits compared with the wanted ones.
// Where they differ and `rewrite` is true they are written, and read back. `scrubber` gives the scrubber back.
pub fn scrub(s: Scrubber, list: &[Watch], rewrite: bool) -> Call
    ensures { call_of result ≡ started (Scrub s.place list.now rewrite) }
{
    let p = scrub::scrub_begin(watch::scrub_start(s, list), rewrite);
    begun(Family::Scrub(p), [0u8; 76])
}
