// The push calls: control, status and user address are read, the object is written to RAM, and control is written back as first
// read with UINC. To the transmit queue, which is FIFO 0, CiCON is read before them. An unchecked push to it reads the user address
// alone, and control behind the RAM write.
ghost use Rattle.std.specs.Prelude.{◌≡◌, ℕ, []};
ghost use Rattle.message.specs.Structs.{encoded_as, encoded_in};
ghost use Rattle.spi.specs.declared.ask.Ask.{Ask};
ghost use Rattle.spi.specs.Talk.{on_word, on_done};
ghost use Rattle.tx_fifo.specs.PushAt.{PushAt};
ghost use Rattle.tx_fifo.specs.Step.{encoding_for, start_of, queue_start_at, queue_start, queue_unchecked_start, after_enabled, after_control, after_status, after_address, ask_of, outcome_of, is_done};
ghost use Rattle.tx_fifo.specs.Numbers.{stage_at, push_of, settled, Passes, PushBegins, PushSteps};

use call::Outcome;
use configuration::CanControl;
use field::{Numbered, Single};
use fifo::{ControlWord, FifoControl, FifoStatus, UserAddress, is_fifo};
use header::Header;
use message::{clear, encode};
use spi::{Answer, Ask, Refusal, done_reply, read_word, word_reply};

// What the call waits for: the answer to one of its exchanges, in their order; what was read stands beside it. `Enabled` is the queue's
// first one, the `Bare` ones are those of an unchecked push before its `Commit`.
#[derive(Clone, Copy)]
pub enum PushStage {
    Enabled,
    Control,
    Status,
    Address,
    Write,
    Commit,
    BareAddress,
    BareWrite,
    BareControl,
    Done,
    Refused,
}

// `size` is the payload's length and `len` the object's, `w` control as it is written back, `m` the RAM address, `why` what the call was
// refused for. The object's bytes lie in a body beside them.
#[derive(Clone, Copy)]
pub struct PushNumbers {
    pub stage: PushStage,
    pub fifo: u8,
    pub size: usize,
    pub len: usize,
    pub w: u32,
    pub m: u16,
    pub why: Refusal,
}

// The object into the body. 20 comes before what the message is refused for.
#[tactic(auto, unfolding(crate::specs::Step::encoding_for))]
fn encoded_for(
    fifo: u8,
    header: Header,
    seq: u32,
    payload: &[u8],
    body: &mut [u8; 76],
) -> Result<usize, Refusal>
    ensures { encoded_in result body.new ≡ encoded_as (encoding_for fifo header seq payload.now) }
{
    if is_fifo(fifo as u32) {
        encode(header, seq, None, payload, body)
    } else {
        clear(body);
        Err(Refusal::BadNumber)
    }
}

// The call at its first stage, or refused for its message.
fn begun(fifo: u8, size: usize, first: PushStage, e: Result<usize, Refusal>) -> PushNumbers
    ensures { PushBegins fifo size first e result }
{
    let (stage, len, why) = match e {
        Ok(len) => (first, len, Refusal::WrongAnswer),
        Err(r) => (PushStage::Refused, 0, r),
    };
    PushNumbers {
        stage,
        fifo,
        size,
        len,
        w: 0,
        m: 0,
        why,
    }
}

#[tactic(auto, unfolding(crate::specs::Step::start_of))]
pub fn push_start(
    fifo: u8,
    header: Header,
    seq: u32,
    payload: &[u8],
    body: &mut [u8; 76],
) -> PushNumbers
    ensures { push_of result body.new ≡ start_of fifo header seq payload.now }
{
    let size = payload.len();
    let e = encoded_for(fifo, header, seq, payload, body);
    begun(fifo, size, PushStage::Control, e)
}

// To the queue; its number is made here alone.
#[tactic(auto, unfolding(crate::specs::Step::queue_start_at))]
fn queue_begun(
    first: PushStage,
    header: Header,
    seq: u32,
    payload: &[u8],
    body: &mut [u8; 76],
) -> PushNumbers
    ensures { push_of result body.new ≡ queue_start_at (stage_at first result) header seq payload.now }
{
    let size = payload.len();
    let e = encode(header, seq, None, payload, body);
    begun(0, size, first, e)
}

pub fn queue_push_start(
    header: Header,
    seq: u32,
    payload: &[u8],
    body: &mut [u8; 76],
) -> PushNumbers
    ensures { push_of result body.new ≡ queue_start header seq payload.now }
{
    queue_begun(PushStage::Enabled, header, seq, payload, body)
}

// A push that tests neither the queue nor its room: a message that is held may be overwritten.
pub fn queue_unchecked_start(
    header: Header,
    seq: u32,
    payload: &[u8],
    body: &mut [u8; 76],
) -> PushNumbers
    ensures { push_of result body.new ≡ queue_unchecked_start header seq payload.now }
{
    queue_begun(PushStage::BareAddress, header, seq, payload, body)
}

#[tactic(auto, unfolding(crate::specs::Step::after_enabled))]
fn after_enabled(w: u32) -> Result<PushStage, Refusal>
    ensures { Passes result PushStage.Control (after_enabled w) PushAt.Control }
{
    if CanControl(w).txqen() {
        Ok(PushStage::Control)
    } else {
        Err(Refusal::TxQueueDisabled)
    }
}

// The queue, FIFO 0, always sends.
#[tactic(auto, unfolding(crate::specs::Step::after_control))]
fn after_control(fifo: u8, size: usize, w: u32) -> Result<PushStage, Refusal>
    ensures { Passes result PushStage.Status (after_control fifo size w) (PushAt.Status w) }
{
    if !(fifo == 0 || FifoControl(w).txen()) {
        return Err(Refusal::FifoNotTx);
    }
    if FifoControl(w).payload_size() < size {
        return Err(Refusal::FifoTooSmall);
    }
    Ok(PushStage::Status)
}

#[tactic(auto, unfolding(crate::specs::Step::after_status))]
fn after_status(v: u32) -> Result<PushStage, Refusal>
    ensures { (w : ℕ) → Passes result PushStage.Address (after_status w v) (PushAt.Address w) }
{
    if FifoStatus(v).tfnrfnif() {
        Ok(PushStage::Address)
    } else {
        Err(Refusal::FifoFull)
    }
}

// The RAM address for the user address u.
#[tactic(auto, unfolding(crate::specs::Step::after_address, spi::specs::Ram::ram_address))]
fn ram_address(len: usize, u: u32) -> Result<u16, Refusal>
    ensures { (to : ℕ → PushAt) → on_word PushAt.Refused result to ≡ after_address len to u }
{
    spi::ram_address(u, len)
}

// The call after an answer, or what it is refused for.
#[tactic(auto, unfolding(crate::specs::Step::step_of))]
fn advanced(c: PushNumbers, answer: Answer, rx: &[u8]) -> Result<PushNumbers, Refusal>
    ensures { PushSteps c answer rx.now (settled c result) }
{
    let word = word_reply(Refusal::SpiRead, answer, rx);
    let in_ram = done_reply(Refusal::SpiWrite, answer, rx.len(), 0);
    let written = done_reply(Refusal::SpiRead, answer, rx.len(), 0);
    let mut next = c;
    next.stage = match c.stage {
        PushStage::Enabled => after_enabled(word?)?,
        PushStage::Control => {
            next.w = word?;
            after_control(c.fifo, c.size, next.w)?
        }
        PushStage::Status => after_status(word?)?,
        PushStage::Address => {
            next.m = ram_address(c.len, word?)?;
            PushStage::Write
        }
        PushStage::Write => in_ram.map(|_| PushStage::Commit)?,
        PushStage::Commit => written.map(|_| PushStage::Done)?,
        PushStage::BareAddress => {
            next.m = ram_address(c.len, word?)?;
            PushStage::BareWrite
        }
        PushStage::BareWrite => in_ram.map(|_| PushStage::BareControl)?,
        PushStage::BareControl => {
            next.w = word?;
            PushStage::Commit
        }
        PushStage::Done | PushStage::Refused => return Err(Refusal::WrongAnswer),
    };
    Ok(next)
}

pub fn push_step(c: PushNumbers, answer: Answer, rx: &[u8]) -> PushNumbers
    ensures { PushSteps c answer rx.now result }
{
    advanced(c, answer, rx).unwrap_or_else(|why| PushNumbers {
        stage: PushStage::Refused,
        why,
        ..c
    })
}

#[tactic(auto, unfolding(crate::specs::Step::ask_of))]
pub fn push_ask(c: PushNumbers) -> Ask
    ensures { result ≡ ask_of (push_of c []) }
{
    match c.stage {
        PushStage::Enabled => read_word(CanControl::address()),
        PushStage::Control | PushStage::BareControl => read_word(FifoControl::address(c.fifo)),
        PushStage::Status => read_word(FifoStatus::address(c.fifo)),
        PushStage::Address | PushStage::BareAddress => read_word(UserAddress::address(c.fifo)),
        PushStage::Write | PushStage::BareWrite => Ask::Body {
            address: c.m,
            count: c.len,
        },
        PushStage::Commit => Ask::Word {
            address: FifoControl::address(c.fifo),
            word: FifoControl(c.w).with_uinc(true).0,
        },
        PushStage::Done | PushStage::Refused => Ask::Nothing,
    }
}

#[tactic(auto, unfolding(crate::specs::Step::outcome_of))]
pub fn push_outcome(c: PushNumbers) -> Outcome
    ensures { result ≡ outcome_of (push_of c []) }
{
    match c.stage {
        PushStage::Done => Outcome::Done,
        PushStage::Refused => Outcome::Refused(c.why),
        _ => Outcome::Running,
    }
}

pub fn push_done(c: PushNumbers) -> bool
    ensures { result ≡ is_done (push_of c []) }
{
    matches!(c.stage, PushStage::Done)
}
