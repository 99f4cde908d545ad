// Has-next, peek and get, from one exchange to the next.
#![tactic(auto)]

ghost use Rattle.std.specs.Prelude.{◌≡◌};
ghost use Rattle.spi.specs.Reply.{word_reply};
ghost use Rattle.spi.specs.Talk.{on_word, on_pair, on_done};
ghost use Rattle.spi.specs.declared.refusal.Refusal.{Refusal};
ghost use Rattle.fetch.specs.FetchAt.{FetchAt};
ghost use Rattle.fetch.specs.declared.FetchStage.{FetchStage};
ghost use Rattle.fetch.specs.Step.{after_control, after_status, after_address, after_header, to_time, to_body, after_again, after_time, after_body, next_at};
ghost use Rattle.fetch.specs.Numbers.{found_in, fetch_at, standing, started, stage_by, moved_to, Goes};

use fifo::{ControlWord, FifoControl, FifoStatus};
use spi::{Answer, Refusal, in_ram, ram_address};

#[derive(Clone, Copy)]
pub enum Want {
    HasNext,
    Peek,
    Get,
}

// The exchange that a call asks for, or how it ended.
#[derive(Clone, Copy)]
pub enum FetchStage {
    Control,
    Status,
    Address,
    Header,
    // Control again, for PLSIZE and RXTSEN.
    Again,
    Time,
    Body,
    // Control a third time, and that word to be written with UINC.
    Next,
    Commit,
    Done,
    Empty,
    Yes,
    No,
    Refused,
}

// A call as plain numbers; which of them count is told by the stage.
#[derive(Clone, Copy)]
pub struct FetchNumbers {
    pub stage: FetchStage,
    pub want: Want,
    pub fifo: u8,
    // Whether there is a timestamp.
    pub stamped: bool,
    // The payload's length.
    pub len: u8,
    // The address of the next RAM access; of the object while control is read again.
    pub m: u16,
    // Control as read last, to be written with UINC.
    pub w: u32,
    // The object's two header words, and its timestamp.
    pub a: u32,
    pub b: u32,
    pub t: u32,
    pub why: Refusal,
}

// Before the first exchange.
pub fn start(want: Want, fifo: u8) -> FetchNumbers
    ensures { result ≡ started want fifo }
{
    FetchNumbers {
        stage: FetchStage::Control,
        want,
        fifo,
        stamped: false,
        len: 0,
        m: 0,
        w: 0,
        a: 0,
        b: 0,
        t: 0,
        why: Refusal::WrongAnswer,
    }
}

pub fn refused(c: FetchNumbers, why: Refusal) -> FetchNumbers
    ensures { result ≡ moved_to c FetchStage.Refused why }
{
    FetchNumbers {
        stage: FetchStage::Refused,
        why,
        ..c
    }
}

// TXEN is looked at only here, in the first control word.
#[tactic(auto, unfolding(crate::specs::Step::after_control))]
fn after_control(c: FetchNumbers, reply: Result<u32, Refusal>) -> Result<FetchNumbers, Refusal>
    ensures { Goes c result (on_word FetchAt.Refused reply after_control) }
{
    let w = reply?;
    if FifoControl(w).txen() {
        return Err(Refusal::FifoNotRx);
    }
    Ok(FetchNumbers {
        stage: FetchStage::Status,
        ..c
    })
}

// Where the status word leads.
fn stage_by(want: Want, next: bool) -> FetchStage
    ensures { result ≡ stage_by want next }
{
    match want {
        Want::HasNext => if next {
            FetchStage::Yes
        } else {
            FetchStage::No
        },
        Want::Peek | Want::Get => if next {
            FetchStage::Address
        } else {
            FetchStage::Empty
        },
    }
}

#[tactic(auto, unfolding(crate::specs::Step::after_status))]
fn after_status(c: FetchNumbers, reply: Result<u32, Refusal>) -> Result<FetchNumbers, Refusal>
    ensures { Goes c result (on_word FetchAt.Refused reply (after_status c.want)) }
{
    let stage = stage_by(c.want, FifoStatus(reply?).tfnrfnif());
    Ok(FetchNumbers { stage, ..c })
}

// The object lies 0x400 above the user address.
#[tactic(auto, unfolding(crate::specs::Step::after_address, spi::specs::Ram::ram_address))]
fn after_address(c: FetchNumbers, reply: Result<u32, Refusal>) -> Result<FetchNumbers, Refusal>
    ensures { Goes c result (on_word FetchAt.Refused reply after_address) }
{
    let m = ram_address(reply?, 8)?;
    Ok(FetchNumbers {
        stage: FetchStage::Header,
        m,
        ..c
    })
}

#[tactic(auto, unfolding(crate::specs::Step::after_header))]
fn after_header(
    c: FetchNumbers,
    reply: Result<(u32, u32), Refusal>,
) -> Result<FetchNumbers, Refusal>
    ensures { Goes c result (on_pair FetchAt.Refused reply (after_header c.m)) }
{
    let (a, b) = reply?;
    Ok(FetchNumbers {
        stage: FetchStage::Again,
        a,
        b,
        stamped: false, // none is read yet
        len: header::received_length_of(b) as u8,
        ..c
    })
}

#[tactic(auto, unfolding(crate::specs::Step::to_time))]
fn to_time(c: FetchNumbers, x: u32) -> Result<FetchNumbers, Refusal>
    ensures { Goes c result (to_time x (found_in c)) }
{
    let m = in_ram(x, 4)?;
    Ok(FetchNumbers {
        stage: FetchStage::Time,
        m,
        ..c
    })
}

#[tactic(auto, unfolding(crate::specs::Step::to_body))]
fn to_body(c: FetchNumbers, x: u32) -> Result<FetchNumbers, Refusal>
    ensures { Goes c result (to_body x (found_in c)) }
{
    let m = in_ram(x, words::round_up(c.len as usize))?;
    Ok(FetchNumbers {
        stage: FetchStage::Body,
        m,
        ..c
    })
}

// PLSIZE and RXTSEN are those of the second control word: nothing behind the slot is read.
#[tactic(auto, unfolding(crate::specs::Step::after_again))]
fn after_again(c: FetchNumbers, reply: Result<u32, Refusal>) -> Result<FetchNumbers, Refusal>
    ensures { Goes c result (on_word FetchAt.Refused reply (after_again c.m (found_in c))) }
{
    let w = reply?;
    if FifoControl(w).payload_size() < c.len as usize {
        return Err(Refusal::LengthBeyondSlot);
    }
    let x = (c.m as u32) + 8;
    if FifoControl(w).rxtsen() {
        to_time(c, x)
    } else {
        to_body(c, x)
    }
}

#[tactic(auto, unfolding(crate::specs::Step::after_time))]
fn after_time(c: FetchNumbers, reply: Result<u32, Refusal>) -> Result<FetchNumbers, Refusal>
    ensures { Goes c result (on_word FetchAt.Refused reply (after_time c.m (found_in c))) }
{
    let t = reply?;
    let n = FetchNumbers {
        stamped: true,
        t,
        ..c
    };
    to_body(n, (c.m as u32) + 4)
}

fn after_body(c: FetchNumbers, reply: Result<(), Refusal>) -> Result<FetchNumbers, Refusal>
    ensures { Goes c result (on_done FetchAt.Refused reply (after_body c.want (found_in c))) }
{
    reply?;
    let stage = match c.want {
        Want::HasNext | Want::Peek => FetchStage::Done,
        Want::Get => FetchStage::Next,
    };
    Ok(FetchNumbers { stage, ..c })
}

fn after_next(c: FetchNumbers, reply: Result<u32, Refusal>) -> Result<FetchNumbers, Refusal>
    ensures { Goes c result (on_word FetchAt.Refused reply (λ w. FetchAt.Commit w (found_in c))) }
{
    let control = reply?;
    Ok(FetchNumbers {
        stage: FetchStage::Commit,
        w: control,
        ..c
    })
}

fn after_commit(c: FetchNumbers, reply: Result<(), Refusal>) -> Result<FetchNumbers, Refusal>
    ensures { Goes c result (on_done FetchAt.Refused reply (FetchAt.Done (found_in c))) }
{
    reply?;
    Ok(FetchNumbers {
        stage: FetchStage::Done,
        ..c
    })
}

// A failed exchange of these calls is 1.
fn word(answer: Answer, rx: &[u8]) -> Result<u32, Refusal>
    ensures { result ≡ word_reply Refusal.SpiRead answer rx.now }
{
    spi::word_reply(Refusal::SpiRead, answer, rx)
}

// Where an answer leads, or what the call is refused with: after the end every answer is wrong.
fn reached(c: FetchNumbers, answer: Answer, rx: &[u8]) -> Result<FetchNumbers, Refusal>
    ensures { Goes c result (next_at c.want (fetch_at c) answer rx.now) }
{
    match c.stage {
        FetchStage::Control => after_control(c, word(answer, rx)),
        FetchStage::Status => after_status(c, word(answer, rx)),
        FetchStage::Address => after_address(c, word(answer, rx)),
        FetchStage::Header => after_header(c, spi::pair_reply(Refusal::SpiRead, answer, rx)),
        FetchStage::Again => after_again(c, word(answer, rx)),
        FetchStage::Time => after_time(c, word(answer, rx)),
        FetchStage::Body => after_body(
            c,
            spi::done_reply(
                Refusal::SpiRead,
                answer,
                rx.len(),
                words::round_up(c.len as usize),
            ),
        ),
        FetchStage::Next => after_next(c, word(answer, rx)),
        FetchStage::Commit => after_commit(
            c,
            spi::done_reply(Refusal::SpiRead, answer, rx.len(), 0),
        ),
        _ => Err(Refusal::WrongAnswer),
    }
}

pub fn next_at(c: FetchNumbers, answer: Answer, rx: &[u8]) -> FetchNumbers
    ensures { standing result ≡ (c.fifo, c.want, next_at c.want (fetch_at c) answer rx.now) }
{
    reached(c, answer, rx).unwrap_or_else(|why| refused(c, why))
}
