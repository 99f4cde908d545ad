// The calls on RAM: read, write, and the echo of 32 words by which the line is tried.
#![tactic(auto)]

ghost use Rattle.std.specs.Prelude.{◌≡◌, ◌*◌, ◌<◌, ◌^◌, eqb, length};
ghost use Rattle.words.specs.Words.{le_at};
ghost use Rattle.spi.specs.declared.refusal.Refusal.{Refusal};
ghost use Rattle.ram.specs.Echo.{echo_bytes, same};
ghost use Rattle.ram.specs.Numbers.{at_stage, ram_of, gone};
ghost use Rattle.ram.specs.Step.{inside, read_start, write_start, after_echo, step_of, ask_of, outcome_of, filled_part, filled_by, finished_part, finished_as};
ghost use Rattle.ram.specs.RamCall.{RamCall};

use call::Outcome;
use spi::{Answer, Ask, Refusal};

// Where the echoed words go, and how many bytes they are.
const ECHO_ADDRESS: u16 = 0x400;

const ECHO_LEN: usize = 128;

#[derive(Clone, Copy)]
pub enum RamStage {
    Read,
    Received,
    Write,
    EchoWrite,
    EchoRead,
    Done,
    Refused,
}

// Where a call stands, in plain numbers. `m`: the address; `place`: where in the lent buffer the bytes go that are read; `count`: how
// many bytes are read or written. A stage looks only at those that it needs.
#[derive(Clone, Copy)]
pub struct RamNumbers {
    pub stage: RamStage,
    pub m: u16,
    pub place: usize,
    pub count: usize,
    pub why: Refusal,
}

fn refused(why: Refusal) -> RamNumbers
    ensures { ram_of result ≡ RamCall.Refused why }
{
    RamNumbers {
        stage: RamStage::Refused,
        m: 0,
        place: 0,
        count: 0,
        why,
    }
}

// A call that is not refused: what `why` is says nothing.
fn at_stage(stage: RamStage, m: u16, place: usize, count: usize) -> RamNumbers
    ensures { ram_of result ≡ at_stage stage m place count Refusal.WrongAnswer }
{
    RamNumbers {
        stage,
        m,
        place,
        count,
        why: Refusal::WrongAnswer,
    }
}

// Whether a part lies inside a buffer of `room` bytes; the sum of the two could wrap.
fn is_inside(place: usize, count: usize, room: usize) -> bool
    ensures { result ≡ inside place count room }
{
    place <= room && count <= room - place
}

// The buffer is tested before the address.
#[tactic(auto, using(crate::proofs::Tests::access_fits), unfolding(crate::specs::Step::read_start))]
pub fn read_ram_start(address: u32, room: usize, place: usize, count: usize) -> RamNumbers
    ensures { ram_of result ≡ read_start address room place count }
{
    if !is_inside(place, count, room) {
        return refused(Refusal::BufferTooSmall);
    }
    match spi::read_access(address, count) {
        Ok(()) => at_stage(RamStage::Read, address as u16, place, count),
        Err(r) => refused(r),
    }
}

// The bytes to write are the call's body: the caller lends them when they are sent.
#[tactic(auto, using(crate::proofs::Tests::access_fits), unfolding(crate::specs::Step::write_start))]
pub fn write_ram_start(address: u32, count: usize) -> RamNumbers
    ensures { ram_of result ≡ write_start address count }
{
    match spi::write_access(address, count) {
        Ok(()) => at_stage(RamStage::Write, address as u16, 0, count),
        Err(r) => refused(r),
    }
}

pub fn verify_long_start() -> RamNumbers
    ensures { ram_of result ≡ RamCall.EchoWrite }
{
    at_stage(RamStage::EchoWrite, 0, 0, 0)
}

// Word i of an echo: one bit is set.
fn echo_word(i: usize) -> u32
    requires { i < 32 }
    ensures { result ≡ 2 ^ i }
{
    1u32 << i
}

// The body of an echo: 32 words, each with one bit set.
pub fn echo_pattern() -> [u8; 128]
    ensures { result ≡ echo_bytes }
{
    let mut p = [0u8; 128];
    for i in 0..32 {
        parts::put_at(&mut p, 4 * i, &words::le_bytes(echo_word(i)));
    }
    p
}

#[tactic(auto, unfolding(crate::specs::Step::ask_of))]
pub fn ram_ask(c: RamNumbers) -> Ask
    ensures { result ≡ ask_of (ram_of c) }
{
    match c.stage {
        RamStage::Read => Ask::Read {
            address: c.m,
            count: c.count,
        },
        RamStage::Write => Ask::Body {
            address: c.m,
            count: c.count,
        },
        RamStage::EchoWrite => Ask::Body {
            address: ECHO_ADDRESS,
            count: ECHO_LEN,
        },
        RamStage::EchoRead => Ask::Read {
            address: ECHO_ADDRESS,
            count: ECHO_LEN,
        },
        _ => Ask::Nothing,
    }
}

// Whether word i of what came back is that of the echo.
fn is_word(rx: &[u8], i: usize) -> bool
    requires { (i < 32) × (length rx.now ≡ 128) }
    ensures { result ≡ eqb (le_at rx.now (4 * i)) (2 ^ i) }
{
    words::le_at(rx, 4 * i) == echo_word(i)
}

// Whether what was read back is the pattern: word by word, so that no pattern is made.
fn is_echo(rx: &[u8]) -> bool
    ensures { result ≡ same rx.now echo_bytes }
{
    if rx.len() != ECHO_LEN {
        return false;
    }
    for i in 0..32 {
        if !is_word(rx, i) {
            return false;
        }
    }
    true
}

#[tactic(auto, unfolding(crate::specs::Step::after_echo))]
fn after_echo(c: RamNumbers, rx: &[u8]) -> Result<RamNumbers, Refusal>
    ensures { gone result ≡ after_echo rx.now }
{
    if is_echo(rx) {
        Ok(RamNumbers {
            stage: RamStage::Done,
            ..c
        })
    } else {
        Err(Refusal::SpiFailedRamEcho)
    }
}

// Where an answer leads, or what the call is refused with. A failed read is told as 1, a failed write as 2, every
// failed exchange of an echo as 11.
#[tactic(auto, unfolding(crate::specs::Step::step_of))]
fn reached(c: RamNumbers, answer: Answer, rx: &[u8]) -> Result<RamNumbers, Refusal>
    ensures { gone result ≡ step_of (ram_of c) answer rx.now }
{
    let stage = match c.stage {
        RamStage::Read => {
            spi::done_reply(Refusal::SpiRead, answer, rx.len(), c.count)?;
            RamStage::Received
        }
        RamStage::Write => {
            spi::done_reply(Refusal::SpiWrite, answer, rx.len(), 0)?;
            RamStage::Done
        }
        RamStage::EchoWrite => {
            spi::done_reply(Refusal::ConfigurationModeTimeout, answer, rx.len(), 0)?;
            RamStage::EchoRead
        }
        RamStage::EchoRead => {
            spi::done_reply(
                Refusal::ConfigurationModeTimeout,
                answer,
                rx.len(),
                ECHO_LEN,
            )?;
            return after_echo(c, rx);
        }
        _ => return Err(Refusal::WrongAnswer),
    };
    Ok(RamNumbers { stage, ..c })
}

pub fn ram_step(c: RamNumbers, answer: Answer, rx: &[u8]) -> RamNumbers
    ensures { ram_of result ≡ step_of (ram_of c) answer rx.now }
{
    reached(c, answer, rx).unwrap_or_else(|why| refused(why))
}

#[tactic(auto, unfolding(crate::specs::Step::outcome_of))]
pub fn ram_outcome(c: RamNumbers) -> Outcome
    ensures { result ≡ outcome_of (ram_of c) }
{
    match c.stage {
        RamStage::Received | RamStage::Done => Outcome::Done,
        RamStage::Refused => Outcome::Refused(c.why),
        _ => Outcome::Running,
    }
}

// The buffer is tested again, as it is lent again, and then the bytes, as they are shown again.
#[tactic(auto, unfolding(crate::specs::Step::filled_part, crate::specs::Step::finished_part))]
fn finish_part(place: usize, count: usize, rx: &[u8], buf: &mut [u8]) -> Outcome
    ensures { (result ≡ finished_part place count (length rx.now) (length buf.old)) × (buf.new ≡ filled_part place count rx.now buf.old) }
{
    if !is_inside(place, count, buf.len()) {
        return Outcome::Refused(Refusal::BufferTooSmall);
    }
    if rx.len() != count {
        return Outcome::Refused(Refusal::WrongAnswer);
    }
    parts::put_at(buf, place, rx);
    Outcome::Done
}

// What a read received goes to its part of the lent buffer; any other call changes no byte.
#[tactic(auto, unfolding(crate::specs::Step::outcome_of, crate::specs::Step::finished_as, crate::specs::Step::filled_by))]
pub fn ram_finish(c: RamNumbers, rx: &[u8], buf: &mut [u8]) -> Outcome
    ensures { (result ≡ finished_as (ram_of c) (length rx.now) (length buf.old)) × (buf.new ≡ filled_by (ram_of c) rx.now buf.old) }
{
    match c.stage {
        RamStage::Received => finish_part(c.place, c.count, rx, buf),
        _ => ram_outcome(c),
    }
}
