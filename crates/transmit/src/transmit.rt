// Transmit: a push, and where it is done a request, by which the FIFO is to send what it holds: control is read, and written with
// TXREQ 1.
ghost use Rattle.std.specs.Prelude.{◌≡◌, ℕ, [], Err};
ghost use Rattle.plan.specs.Change.{modified};
ghost use Rattle.plan.specs.Step.{ask_of as plan_ask, outcome_of as plan_outcome};
ghost use Rattle.tx_fifo.specs.Step.{is_done};
ghost use Rattle.transmit.specs.Transmit.{request_change, transmit_start, transmit_ask, transmit_outcome};
ghost use Rattle.transmit.specs.Numbers.{request_of, settled, transmit_in, RequestStarts, RequestSteps, TransmitSteps};

use call::Outcome;
use field::Numbered;
use fifo::{ControlWord, FifoControl, is_fifo};
use header::Header;
use spi::{Answer, Ask, Refusal, done_reply, read_word, word_reply};
use tx_fifo::{PushNumbers, PushStage, push_ask, push_done, push_outcome, push_start, push_step};

// What the request waits for: control as read, the answer to its write. `Late`: an answer came when it was done.
#[derive(Clone, Copy)]
pub enum RequestStage {
    Read,
    Write,
    Done,
    Late,
    Refused,
}

// Once the push is done, `w` of its numbers is the word that the request writes and `why` what it was refused for.
#[derive(Clone, Copy)]
pub struct TransmitNumbers {
    pub push: PushNumbers,
    pub request: RequestStage,
}

// Where the push is done the request begins, or is refused 20.
#[tactic(auto, unfolding(crate::specs::Transmit::request_start, plan::specs::Step::arrived_at))]
fn with_request(push: PushNumbers) -> TransmitNumbers
    ensures { RequestStarts push result }
{
    if push_done(push) && !is_fifo(push.fifo as u32) {
        let why = Refusal::BadNumber;
        TransmitNumbers {
            push: PushNumbers { why, ..push },
            request: RequestStage::Refused,
        }
    } else {
        TransmitNumbers {
            push,
            request: RequestStage::Read,
        }
    }
}

pub fn transmit_start(
    fifo: u8,
    header: Header,
    seq: u32,
    payload: &[u8],
    body: &mut [u8; 76],
) -> TransmitNumbers
    ensures { transmit_in result body.new ≡ transmit_start fifo header seq payload.now }
{
    with_request(push_start(fifo, header, seq, payload, body))
}

fn request_ask(p: PushNumbers, request: RequestStage) -> Ask
    ensures { result ≡ plan_ask (request_of request p) }
{
    match request {
        RequestStage::Read => read_word(FifoControl::address(p.fifo)),
        RequestStage::Write => Ask::Word {
            address: FifoControl::address(p.fifo),
            word: p.w,
        },
        _ => Ask::Nothing,
    }
}

#[tactic(auto, unfolding(crate::specs::Transmit::transmit_ask))]
pub fn transmit_ask(c: TransmitNumbers) -> Ask
    ensures { result ≡ transmit_ask (transmit_in c []) }
{
    if push_done(c.push) {
        request_ask(c.push, c.request)
    } else {
        push_ask(c.push)
    }
}

// The word that is written for the one that was read.
#[tactic(auto, using(crate::proofs::Transmits::request_word))]
fn requested(w: u32) -> u32
    ensures { (fifo : ℕ) → result ≡ modified (request_change fifo) w }
{
    FifoControl(w).with_txreq(true).0
}

// The request after an answer, or what it is refused for.
#[tactic(auto, using(crate::proofs::Requests::at_end), unfolding(plan::specs::Step::step_of))]
fn advanced(
    p: PushNumbers,
    request: RequestStage,
    answer: Answer,
    rx: &[u8],
) -> Result<TransmitNumbers, Refusal>
    ensures { RequestSteps p request answer rx.now (settled p result) }
{
    let mut push = PushNumbers {
        stage: PushStage::Done,
        ..p
    };
    let request = match request {
        RequestStage::Read => {
            push.w = requested(word_reply(Refusal::SpiRead, answer, rx)?);
            RequestStage::Write
        }
        RequestStage::Write => {
            done_reply(Refusal::SpiRead, answer, rx.len(), 0)?;
            RequestStage::Done
        }
        RequestStage::Done | RequestStage::Late => RequestStage::Late,
        RequestStage::Refused => return Err(Refusal::WrongAnswer),
    };
    Ok(TransmitNumbers { push, request })
}

fn refused(p: PushNumbers, why: Refusal) -> TransmitNumbers
    ensures { result ≡ settled p (Err why) }
{
    TransmitNumbers {
        push: PushNumbers {
            stage: PushStage::Done,
            why,
            ..p
        },
        request: RequestStage::Refused,
    }
}

fn request_step(p: PushNumbers, request: RequestStage, answer: Answer, rx: &[u8]) -> TransmitNumbers
    ensures { RequestSteps p request answer rx.now result }
{
    advanced(p, request, answer, rx).unwrap_or_else(|why| refused(p, why))
}

pub fn transmit_step(c: TransmitNumbers, answer: Answer, rx: &[u8]) -> TransmitNumbers
    ensures { TransmitSteps c answer rx.now result }
{
    if push_done(c.push) {
        request_step(c.push, c.request, answer, rx)
    } else {
        with_request(push_step(c.push, answer, rx))
    }
}

fn request_outcome(p: PushNumbers, request: RequestStage) -> Outcome
    ensures { result ≡ plan_outcome (request_of request p) }
{
    match request {
        RequestStage::Read | RequestStage::Write => Outcome::Running,
        RequestStage::Done => Outcome::Done,
        RequestStage::Late => Outcome::Refused(Refusal::WrongAnswer),
        RequestStage::Refused => Outcome::Refused(p.why),
    }
}

#[tactic(auto, unfolding(crate::specs::Transmit::transmit_outcome))]
pub fn transmit_outcome(c: TransmitNumbers) -> Outcome
    ensures { result ≡ transmit_outcome (transmit_in c []) }
{
    if push_done(c.push) {
        request_outcome(c.push, c.request)
    } else {
        push_outcome(c.push)
    }
}

// The message is in the chip, also where the request was refused.
pub fn accepted(c: TransmitNumbers) -> bool
    ensures { result ≡ is_done (transmit_in c []).push }
{
    push_done(c.push)
}
