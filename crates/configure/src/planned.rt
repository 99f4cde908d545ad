// A plan as numbers. Its items are not stored: a few numbers say what they are, and for some kinds the words that were put into
// the body when the call began.
ghost use Rattle.std.specs.Prelude.{◌≡◌};
ghost use Rattle.configure.specs.Numbers.{failed_in, late_in, poll_in};

use plan::{Change, Poll};
use spi::Refusal;

// What a plan does. `One` and `Io` are one change; they differ in what a failed exchange means.
#[derive(Clone, Copy)]
pub enum PlanKind {
    Nothing,
    One,
    Io,
    Verify,
    Mode,
    Oscillator,
    Timing,
    Filter,
    Queue,
    Configure,
}

#[derive(Clone, Copy)]
pub enum PlanStage {
    // A change: its register is read; the word is written.
    Read,
    Write,
    // A poll and a wait: for a mode, for the PLL.
    ModePoll,
    ModeWait,
    PllPoll,
    PllWait,
    // An echo: the word is written; it is read back.
    EchoWrite,
    EchoRead,
    Done,
    Refused,
}

// `n`: the mode waited for, or the filter's number; `more`: polls, or bits of an echo, that are left; `next`: the place of the
// item after the one under way; `change`: the one under way; `w`: the word to write.
#[derive(Clone, Copy)]
pub struct PlanNumbers {
    pub kind: PlanKind,
    pub stage: PlanStage,
    pub n: u8,
    pub more: u8,
    pub next: u8,
    pub change: Change,
    pub w: u32,
    pub why: Refusal,
}

pub fn failed_in(kind: PlanKind) -> Refusal
    ensures { result ≡ failed_in kind }
{
    match kind {
        PlanKind::Nothing | PlanKind::One | PlanKind::Filter => Refusal::SpiRead,
        _ => Refusal::ConfigurationModeTimeout,
    }
}

// Where the mode does not come.
pub fn late_in(kind: PlanKind) -> Refusal
    ensures { result ≡ late_in kind }
{
    match kind {
        PlanKind::Configure => Refusal::ConfigurationModeTimeout,
        _ => Refusal::ChangeOpModeTimeout,
    }
}

// The poll of a mode.
pub fn mode_poll(c: PlanNumbers) -> Poll
    ensures { result ≡ poll_in c }
{
    Poll::Mode(c.n as u32, late_in(c.kind))
}
