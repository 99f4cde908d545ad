// The calls on a register as a whole: reset, read, write, checked read, and the mode that CiCON shows.
#![tactic(auto)]

ghost use Rattle.std.specs.Prelude.{◌≡◌};
ghost use Rattle.spi.specs.Talk.{on_checked};
ghost use Rattle.spi.specs.declared.refusal.Refusal.{Refusal};
ghost use Rattle.register.specs.Numbers.{at_stage, register_of, gone};
ghost use Rattle.register.specs.Step.{addressed, again, after_mismatch, step_of, ask_of, outcome_of, read_start, write_start, checked_start};
ghost use Rattle.register.specs.RegisterCall.{RegisterCall};

use call::Outcome;
use configuration::CanControl;
use field::Single;
use spi::{Answer, Ask, CheckedWord, Refusal};

#[derive(Clone, Copy)]
pub enum RegisterStage {
    Reset,
    Read,
    Write,
    Checked,
    Mode,
    Done,
    Word,
    Matched,
    OpMode,
    Refused,
}

// Where a call stands, in plain numbers. `m`: the address; `w`: the word to write, or that was read, or the mode; `seen`: how many
// exchanges of a checked read mismatched. A stage looks only at those that it needs.
#[derive(Clone, Copy)]
pub struct RegisterNumbers {
    pub stage: RegisterStage,
    pub m: u16,
    pub w: u32,
    pub seen: u8,
    pub why: Refusal,
}

fn refused(why: Refusal) -> RegisterNumbers
    ensures { register_of result ≡ RegisterCall.Refused why }
{
    RegisterNumbers {
        stage: RegisterStage::Refused,
        m: 0,
        w: 0,
        seen: 0,
        why,
    }
}

// A call that is not refused: what `why` is says nothing.
fn at_stage(stage: RegisterStage, m: u16, w: u32, seen: u8) -> RegisterNumbers
    ensures { register_of result ≡ at_stage stage m w seen Refusal.WrongAnswer }
{
    RegisterNumbers {
        stage,
        m,
        w,
        seen,
        why: Refusal::WrongAnswer,
    }
}

// An address has 12 bits in a command, and one that is wider is refused before any exchange.
#[tactic(auto, unfolding(crate::specs::Step::addressed))]
fn at_address(address: u32, stage: RegisterStage, w: u32) -> RegisterNumbers
    ensures { register_of result ≡ addressed address (at_stage stage address w 0 Refusal.WrongAnswer) }
{
    if address < 0x1000 {
        at_stage(stage, address as u16, w, 0)
    } else {
        refused(Refusal::BadSetting)
    }
}

pub fn reset_start() -> RegisterNumbers
    ensures { register_of result ≡ RegisterCall.Reset }
{
    at_stage(RegisterStage::Reset, 0, 0, 0)
}

pub fn read_start(address: u32) -> RegisterNumbers
    ensures { register_of result ≡ read_start address }
{
    at_address(address, RegisterStage::Read, 0)
}

pub fn write_start(address: u32, word: u32) -> RegisterNumbers
    ensures { register_of result ≡ write_start address word }
{
    at_address(address, RegisterStage::Write, word)
}

// No exchange has mismatched yet.
pub fn checked_start(address: u32) -> RegisterNumbers
    ensures { register_of result ≡ checked_start address }
{
    at_address(address, RegisterStage::Checked, 0)
}

pub fn get_op_mode_start() -> RegisterNumbers
    ensures { register_of result ≡ RegisterCall.Mode }
{
    at_stage(RegisterStage::Mode, 0, 0, 0)
}

#[tactic(auto, unfolding(crate::specs::Step::ask_of))]
pub fn register_ask(c: RegisterNumbers) -> Ask
    ensures { result ≡ ask_of (register_of c) }
{
    match c.stage {
        RegisterStage::Reset => Ask::Reset,
        RegisterStage::Read => spi::read_word(c.m),
        RegisterStage::Write => Ask::Word {
            address: c.m,
            word: c.w,
        },
        RegisterStage::Checked => Ask::Checked { address: c.m },
        RegisterStage::Mode => spi::read_word(CanControl::address()),
        _ => Ask::Nothing,
    }
}

// A mismatch after so many: three tries, two mismatches are followed by another.
pub fn again(seen: u8) -> Result<u8, Refusal>
    ensures { result ≡ again seen Err Ok }
{
    if seen < 2 {
        Ok(seen + 1)
    } else {
        Err(Refusal::CrcMismatch)
    }
}

#[tactic(auto, unfolding(crate::specs::Step::after_mismatch))]
fn when_checked(c: RegisterNumbers, reply: CheckedWord) -> Result<RegisterNumbers, Refusal>
    ensures { gone result ≡ on_checked RegisterCall.Refused reply (after_mismatch c.m c.seen) (λ w. RegisterCall.Matched w c.seen) }
{
    match reply {
        CheckedWord::Word(w) => Ok(RegisterNumbers {
            stage: RegisterStage::Matched,
            w,
            ..c
        }),
        CheckedWord::Mismatch => {
            let seen = again(c.seen)?;
            Ok(RegisterNumbers {
                stage: RegisterStage::Checked,
                seen,
                ..c
            })
        }
        CheckedWord::Bad(r) => Err(r),
    }
}

// Where an answer leads, or what the call is refused with. A failed reset is told as 2, every other failed exchange as 1: a register
// write too.
#[tactic(auto, unfolding(crate::specs::Step::step_of))]
fn reached(c: RegisterNumbers, answer: Answer, rx: &[u8]) -> Result<RegisterNumbers, Refusal>
    ensures { gone result ≡ step_of (register_of c) answer rx.now }
{
    let (stage, w) = match c.stage {
        RegisterStage::Reset => {
            spi::done_reply(Refusal::SpiWrite, answer, rx.len(), 0)?;
            (RegisterStage::Done, c.w)
        }
        RegisterStage::Read => {
            let w = spi::word_reply(Refusal::SpiRead, answer, rx)?;
            (RegisterStage::Word, w)
        }
        RegisterStage::Write => {
            spi::done_reply(Refusal::SpiRead, answer, rx.len(), 0)?;
            (RegisterStage::Done, c.w)
        }
        RegisterStage::Checked => return when_checked(
            c,
            spi::crc_reply(Refusal::SpiRead, c.m, answer, rx),
        ),
        RegisterStage::Mode => {
            let con = spi::word_reply(Refusal::SpiRead, answer, rx)?;
            (RegisterStage::OpMode, CanControl(con).opmod())
        }
        _ => return Err(Refusal::WrongAnswer),
    };
    Ok(RegisterNumbers { stage, w, ..c })
}

pub fn register_step(c: RegisterNumbers, answer: Answer, rx: &[u8]) -> RegisterNumbers
    ensures { register_of result ≡ step_of (register_of c) answer rx.now }
{
    reached(c, answer, rx).unwrap_or_else(|why| refused(why))
}

#[tactic(auto, unfolding(crate::specs::Step::outcome_of))]
pub fn register_outcome(c: RegisterNumbers) -> Outcome
    ensures { result ≡ outcome_of (register_of c) }
{
    match c.stage {
        RegisterStage::Done => Outcome::Done,
        RegisterStage::Word => Outcome::Word(c.w),
        RegisterStage::Matched => Outcome::Checked(c.w, c.seen),
        RegisterStage::OpMode => Outcome::Mode(c.w),
        RegisterStage::Refused => Outcome::Refused(c.why),
        _ => Outcome::Running,
    }
}
