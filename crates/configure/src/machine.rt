// The machine that carries out a plan.
ghost use Rattle.std.specs.Prelude.{◌≡◌, []};
ghost use Rattle.plan.specs.Step.{after_poll, after_echo, next_at, arrived_at, filled, step_of, ask_of, outcome_of};
ghost use Rattle.configure.specs.Numbers.{failed_in, items_in, place_in, plan_in};
ghost use Rattle.configure.specs.Moves.{moved};

use crate::listed::{count_of, item_of};
use crate::moves::{begin, waits};
use crate::planned::{failed_in, mode_poll};
use crate::{PlanNumbers, PlanStage};
use call::Outcome;
use chip::OscillatorControl;
use configuration::CanControl;
use field::Single;
use plan::{Item, Poll, echo_word, is_shown, is_there, late, modified_word};
use spi::{Answer, Ask, Refusal, done_reply, read_word, wait_reply, word_reply};

// The RAM's first word, where the echo is made.
const ECHO: u16 = 0x400;

// How many items a plan has room for.
const ITEMS: u8 = 15;

#[tactic(auto, unfolding(crate::specs::Numbers::plan_in))]
pub fn plan_ask(c: PlanNumbers) -> Ask
    ensures { result ≡ ask_of (plan_in c []) }
{
    match c.stage {
        PlanStage::Read => read_word(c.change.address),
        PlanStage::Write => Ask::Word {
            address: c.change.address,
            word: c.w,
        },
        PlanStage::ModePoll => read_word(CanControl::address()),
        PlanStage::PllPoll => read_word(OscillatorControl::address()),
        PlanStage::ModeWait | PlanStage::PllWait => Ask::Wait,
        PlanStage::EchoWrite => Ask::Word {
            address: ECHO,
            word: echo_word(c.more),
        },
        PlanStage::EchoRead => read_word(ECHO),
        PlanStage::Done | PlanStage::Refused => Ask::Nothing,
    }
}

// A poll that shows w: none where it is what was waited for.
#[tactic(auto, unfolding(plan::specs::Step::after_poll))]
fn after_poll(c: PlanNumbers, p: Poll, w: u32) -> Result<Option<PlanNumbers>, Refusal>
    ensures { result ≡ moved c (after_poll p c.more w) }
{
    if is_shown(p, w) {
        return Ok(None);
    }
    if c.more == 0 {
        return Err(late(p));
    }
    Ok(Some(PlanNumbers {
        stage: waits(p),
        more: c.more - 1,
        ..c
    }))
}

#[tactic(auto, unfolding(plan::specs::Step::after_echo))]
fn after_echo(c: PlanNumbers, w: u32) -> Result<Option<PlanNumbers>, Refusal>
    ensures { result ≡ moved c (after_echo c.more w) }
{
    if w != echo_word(c.more) {
        return Err(Refusal::SpiFailedRamEcho);
    }
    if c.more == 0 {
        return Ok(None);
    }
    Ok(Some(PlanNumbers {
        stage: PlanStage::EchoWrite,
        more: c.more - 1,
        ..c
    }))
}

// The item under way after an answer: another phase of it, none where it is done, or what the plan is refused for.
fn advanced(c: PlanNumbers, answer: Answer, rx: &[u8]) -> Result<Option<PlanNumbers>, Refusal>
    ensures { result ≡ moved c (next_at (failed_in c.kind) (place_in c) answer rx.now) }
{
    let failed = failed_in(c.kind);
    let word = word_reply(failed, answer, rx);
    let written = done_reply(failed, answer, rx.len(), 0);
    let waited = wait_reply(answer, rx.len());
    let mut next = c;
    next.stage = match c.stage {
        PlanStage::Read => {
            next.w = modified_word(c.change, word?);
            PlanStage::Write
        }
        PlanStage::Write => return written.map(|_| None),
        PlanStage::ModePoll => return after_poll(c, mode_poll(c), word?),
        PlanStage::ModeWait => waited.map(|_| PlanStage::ModePoll)?,
        PlanStage::PllPoll => return after_poll(c, Poll::Pll, word?),
        PlanStage::PllWait => waited.map(|_| PlanStage::PllPoll)?,
        PlanStage::EchoWrite => written.map(|_| PlanStage::EchoRead)?,
        PlanStage::EchoRead => return after_echo(c, word?),
        PlanStage::Done | PlanStage::Refused => return Err(Refusal::WrongAnswer),
    };
    Ok(Some(next))
}

// The plan at the first item from `next` on that does anything, or at its end.
fn arrive(c: PlanNumbers, body: &[u8; 76]) -> PlanNumbers
    ensures { plan_in result body.now ≡ arrived_at (failed_in c.kind) (filled (items_in c body.now)) c.next }
{
    for i in c.next..count_of(c) {
        let item = item_of(c, i, body);
        if is_there(item) {
            return begin(c, i + 1, item);
        }
    }
    begin(c, c.next.max(ITEMS), Item::Nothing)
}

pub fn plan_step(c: PlanNumbers, answer: Answer, rx: &[u8], body: &[u8; 76]) -> PlanNumbers
    ensures { plan_in result body.now ≡ step_of (plan_in c body.now) answer rx.now }
{
    match advanced(c, answer, rx) {
        Ok(Some(next)) => next,
        Ok(None) => arrive(c, body),
        Err(why) => PlanNumbers {
            stage: PlanStage::Refused,
            why,
            ..c
        },
    }
}

#[tactic(auto, unfolding(crate::specs::Numbers::plan_in))]
pub fn plan_outcome(c: PlanNumbers) -> Outcome
    ensures { result ≡ outcome_of (plan_in c []) }
{
    match c.stage {
        PlanStage::Done => Outcome::Done,
        PlanStage::Refused => Outcome::Refused(c.why),
        _ => Outcome::Running,
    }
}
