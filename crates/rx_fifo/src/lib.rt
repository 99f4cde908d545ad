// Has-next, peek and get: the oldest message of a receive FIFO.
#![tactic(auto)]

ghost use Rattle.std.specs.Prelude.{◌≡◌, true, [], min, length};
ghost use Rattle.field.specs.Field.{read, mark};
ghost use Rattle.fifo.specs.Control.{UINC};
ghost use Rattle.header.specs.Header.{DLC, FILHIT, header_of};
ghost use Rattle.fetch.specs.Numbers.{stamp_in};
ghost use Rattle.rx_fifo.specs.Step.{ask_of, has_next_start, lent_start, peek_start, get_start, step_of};
ghost use Rattle.rx_fifo.specs.Outcome.{filled_by, finished_as};
ghost use Rattle.rx_fifo.specs.Numbers.{fetch_of, FetchEnds};

use call::{Found, Outcome};
use fetch::{FetchNumbers, FetchStage, Want};
use field::Numbered;
use fifo::{ControlWord, FifoControl, FifoStatus, UserAddress};
use spi::{Answer, Ask, Refusal, read_word};

mod held;

// 20 before 28.
#[tactic(auto, unfolding(crate::specs::Numbers::fetch_of, crate::specs::Step::lent_start, crate::specs::Step::lent_at))]
fn lent_start(want: Want, fifo: u8, room: usize, body: &mut [u8; 76]) -> FetchNumbers
    ensures { fetch_of result body.new ≡ lent_start want fifo room }
{
    *body = [0u8; 76];
    let c = fetch::start(want, fifo);
    if !fifo::is_fifo(fifo as u32) {
        return fetch::refused(c, Refusal::BadNumber);
    }
    if room < 64 {
        return fetch::refused(c, Refusal::BufferTooSmall);
    }
    c
}

// No buffer is lent, so none is too small.
#[tactic(auto, unfolding(crate::specs::Step::has_next_start, crate::specs::Step::first_at, crate::specs::Step::lent_start, crate::specs::Step::lent_at))]
pub fn has_next_start(fifo: u8, body: &mut [u8; 76]) -> FetchNumbers
    ensures { fetch_of result body.new ≡ has_next_start fifo }
{
    lent_start(Want::HasNext, fifo, 64, body)
}

// `room` is the length of the buffer that will be lent for the payload.
pub fn peek_start(fifo: u8, room: usize, body: &mut [u8; 76]) -> FetchNumbers
    ensures { fetch_of result body.new ≡ peek_start fifo room }
{
    lent_start(Want::Peek, fifo, room, body)
}

pub fn get_start(fifo: u8, room: usize, body: &mut [u8; 76]) -> FetchNumbers
    ensures { fetch_of result body.new ≡ get_start fifo room }
{
    lent_start(Want::Get, fifo, room, body)
}

fn with_uinc(w: u32) -> u32
    ensures { result ≡ mark UINC true w }
{
    FifoControl(w).with_uinc(true).0
}

#[tactic(auto, unfolding(crate::specs::Numbers::fetch_of, crate::specs::Step::ask_of))]
pub fn fetch_ask(c: FetchNumbers) -> Ask
    ensures { result ≡ ask_of (fetch_of c []) }
{
    match c.stage {
        FetchStage::Control | FetchStage::Again | FetchStage::Next => {
            read_word(FifoControl::address(c.fifo))
        }
        FetchStage::Status => read_word(FifoStatus::address(c.fifo)),
        FetchStage::Address => read_word(UserAddress::address(c.fifo)),
        FetchStage::Header => Ask::Read {
            address: c.m,
            count: 8,
        },
        FetchStage::Time => read_word(c.m),
        FetchStage::Body => Ask::Read {
            address: c.m,
            count: words::round_up(c.len as usize),
        },
        FetchStage::Commit => Ask::Word {
            address: FifoControl::address(c.fifo),
            word: with_uinc(c.w),
        },
        _ => Ask::Nothing,
    }
}

#[tactic(auto, unfolding(crate::specs::Numbers::fetch_of, crate::specs::Step::step_of))]
pub fn fetch_step(c: FetchNumbers, answer: Answer, rx: &[u8], body: &mut [u8; 76]) -> FetchNumbers
    ensures { fetch_of result body.new ≡ step_of (fetch_of c body.old) answer rx.now }
{
    held::hold(c, rx, body);
    fetch::next_at(c, answer, rx)
}

fn stamp_of(c: FetchNumbers) -> Option<u32>
    ensures { result ≡ stamp_in c }
{
    c.stamped.then_some(c.t)
}

// As many bytes as the lent buffer is filled with.
fn found(c: FetchNumbers) -> Found
    ensures { result ≡ record { header = header_of c.a c.b; dlc = read DLC c.b; filter = read FILHIT c.b; stamp = stamp_in c; len = min c.len 64 } }
{
    Found {
        header: header::header_of(c.a, c.b),
        dlc: header::dlc_of(c.b),
        filter: header::filter_of(c.b),
        stamp: stamp_of(c),
        len: held::at_most_64(c.len as usize) as u8,
    }
}

#[tactic(auto, unfolding(crate::specs::Numbers::fetch_of, crate::specs::Outcome::outcome_of))]
pub fn fetch_outcome(c: FetchNumbers) -> Outcome
    ensures { FetchEnds c result }
{
    match c.stage {
        FetchStage::Done => Outcome::Message(found(c)),
        FetchStage::Empty => Outcome::Empty,
        FetchStage::Yes => Outcome::Yes,
        FetchStage::No => Outcome::No,
        FetchStage::Refused => Outcome::Refused(c.why),
        _ => Outcome::Running,
    }
}

// How the call ended. The payload of one that is done with a message goes to the front of the lent buffer, or 28 where that is too
// small; no other byte is changed.
#[tactic(auto, unfolding(crate::specs::Numbers::fetch_of, crate::specs::Outcome::outcome_of, crate::specs::Outcome::finished_as))]
pub fn fetch_finish(c: FetchNumbers, body: &[u8; 76], buf: &mut [u8]) -> Outcome
    ensures { (result ≡ finished_as (fetch_of c body.now) (length buf.old)) × (buf.new ≡ filled_by (fetch_of c body.now) buf.old) }
{
    held::fill(c, body, buf);
    if matches!(c.stage, FetchStage::Done) && buf.len() < 64 {
        return Outcome::Refused(Refusal::BufferTooSmall);
    }
    fetch_outcome(c)
}
