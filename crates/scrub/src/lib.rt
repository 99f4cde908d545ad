// A scrub step: a checked read of the entry that is due; where the cared-for bits differ and it was told so, one write of them and a
// checked read-back; a report.
#![tactic(auto)]

ghost use Rattle.std.specs.Prelude.{◌≡◌};
ghost use Rattle.spi.specs.Talk.{on_done, on_checked};
ghost use Rattle.spi.specs.declared.refusal.Refusal.{Refusal};
ghost use Rattle.call.specs.declared.Rewrite.{Rewrite};
ghost use Rattle.call.specs.declared.Outcome.{Outcome};
ghost use Rattle.register.specs.Step.{again};
ghost use Rattle.scrub.specs.Scrub.{ScrubAt};
ghost use Rattle.scrub.specs.Numbers.{standing, telling, scrub_of};
ghost use Rattle.scrub.specs.Step.{agrees, rewritten, begins, to, reports, differs, seen, unread, unwritten, step_of, ask_of, outcome_of};

use call::{Outcome, Report, Rewrite};
use spi::{Answer, Ask, CheckedWord, Refusal};
use watch::{Begun, TurnedDown};

#[derive(Clone, Copy)]
pub enum ScrubStage {
    Visit,
    Write,
    Back,
    Agree,
    Differ,
    Rewritten,
    Unwritten,
    Unread,
    Refused,
}

// Where a step stands, in plain numbers. `place`: the scrubber's; `next`: the place behind the entry; `m`, `a`, `b`: the entry's
// address, wanted word and care mask; `count`: how many exchanges of the checked read under way, or of the last, mismatched; `w`: the
// word that was read, and `first` the visit's count; `t`: the one that was read back. A stage looks only at those that it needs.
#[derive(Clone, Copy)]
pub struct ScrubNumbers {
    pub stage: ScrubStage,
    pub rewrite: bool,
    pub first: u8,
    pub count: u8,
    pub m: u16,
    pub w: u32,
    pub a: u32,
    pub b: u32,
    pub t: u32,
    pub place: usize,
    pub next: usize,
    pub why: Refusal,
}

#[tactic(auto, unfolding(crate::specs::Step::agrees))]
fn is_agreed(read: u32, wanted: u32, care: u32) -> bool
    ensures { result ≡ agrees read wanted care }
{
    read & care == wanted & care
}

#[tactic(auto, unfolding(crate::specs::Step::rewritten))]
fn word_back(read: u32, wanted: u32, care: u32) -> u32
    ensures { result ≡ rewritten read wanted care }
{
    read & !care | wanted & care
}

// A step as the list began it, or turned it down: no exchange has mismatched yet.
#[tactic(auto, unfolding(crate::specs::Step::begins))]
pub fn scrub_begin(b: Result<Begun, TurnedDown>, rewrite: bool) -> ScrubNumbers
    ensures { scrub_of result ≡ begins b rewrite }
{
    let blank = ScrubNumbers {
        stage: ScrubStage::Refused,
        rewrite,
        first: 0,
        count: 0,
        m: 0,
        w: 0,
        a: 0,
        b: 0,
        t: 0,
        place: 0,
        next: 0,
        why: Refusal::WrongAnswer,
    };
    match b {
        Ok(b) => ScrubNumbers {
            stage: ScrubStage::Visit,
            m: b.address,
            a: b.wanted,
            b: b.care,
            place: b.place,
            next: b.next,
            ..blank
        },
        Err(t) => ScrubNumbers {
            place: t.place,
            next: t.place,
            why: t.why,
            ..blank
        },
    }
}

#[tactic(auto, unfolding(crate::specs::Step::ask_of))]
pub fn scrub_ask(c: ScrubNumbers) -> Ask
    ensures { result ≡ ask_of (scrub_of c) }
{
    match c.stage {
        ScrubStage::Write => Ask::Word {
            address: c.m,
            word: word_back(c.w, c.a, c.b),
        },
        ScrubStage::Visit | ScrubStage::Back => Ask::Checked { address: c.m },
        _ => Ask::Nothing,
    }
}

// The step reports, or is over without its word; the scrubber moves on.
fn tells(c: ScrubNumbers, stage: ScrubStage, why: Refusal) -> ScrubNumbers
    ensures { result ≡ telling c stage why }
{
    ScrubNumbers {
        stage,
        place: c.next,
        why,
        ..c
    }
}

// A mismatch: another try at the stage, as in a checked read, or the end without the word.
fn mismatched(c: ScrubNumbers, stage: ScrubStage, lost: ScrubStage) -> ScrubNumbers
    ensures { result ≡ again c.count (telling c lost) (standing c stage) }
{
    match register::again(c.count) {
        Ok(count) => ScrubNumbers { stage, count, ..c },
        Err(why) => tells(c, lost, why),
    }
}

fn when_seen(c: ScrubNumbers, w: u32) -> ScrubNumbers
    ensures { scrub_of result ≡ seen (scrub_of c) w c.count }
{
    let read = ScrubNumbers {
        first: c.count,
        w,
        ..c
    };
    if is_agreed(w, c.a, c.b) {
        return tells(read, ScrubStage::Agree, c.why);
    }
    if c.rewrite {
        return ScrubNumbers {
            stage: ScrubStage::Write,
            ..read
        };
    }
    tells(read, ScrubStage::Differ, c.why)
}

fn when_visited(c: ScrubNumbers, reply: CheckedWord) -> ScrubNumbers
    ensures { scrub_of result ≡ on_checked (unread (scrub_of c)) reply (again c.count (unread (scrub_of c)) (λ k. to (scrub_of c) (ScrubAt.Visit k))) (λ w. seen (scrub_of c) w c.count) }
{
    match reply {
        CheckedWord::Word(w) => when_seen(c, w),
        CheckedWord::Mismatch => mismatched(c, ScrubStage::Visit, ScrubStage::Unread),
        CheckedWord::Bad(r) => tells(c, ScrubStage::Unread, r),
    }
}

fn when_written(c: ScrubNumbers, reply: Result<(), Refusal>) -> ScrubNumbers
    ensures { scrub_of result ≡ on_done (unwritten (scrub_of c) c.w c.first) reply (to (scrub_of c) (ScrubAt.Back c.w c.first 0)) }
{
    match reply {
        Ok(()) => ScrubNumbers {
            stage: ScrubStage::Back,
            count: 0,
            ..c
        },
        Err(r) => tells(c, ScrubStage::Unwritten, r),
    }
}

fn when_back(c: ScrubNumbers, reply: CheckedWord) -> ScrubNumbers
    ensures { scrub_of result ≡ on_checked (unwritten (scrub_of c) c.w c.first) reply (again c.count (unwritten (scrub_of c) c.w c.first) (λ k. to (scrub_of c) (ScrubAt.Back c.w c.first k))) (λ w. reports (scrub_of c) (differs (scrub_of c).entry c.w c.first (Rewrite.Back w c.count))) }
{
    match reply {
        CheckedWord::Word(t) => tells(ScrubNumbers { t, ..c }, ScrubStage::Rewritten, c.why),
        CheckedWord::Mismatch => mismatched(c, ScrubStage::Back, ScrubStage::Unwritten),
        CheckedWord::Bad(r) => tells(c, ScrubStage::Unwritten, r),
    }
}

// A failed write is told as 1, like that of `write_register`.
#[tactic(auto, unfolding(crate::specs::Step::step_of))]
pub fn scrub_step(c: ScrubNumbers, answer: Answer, rx: &[u8]) -> ScrubNumbers
    ensures { scrub_of result ≡ step_of (scrub_of c) answer rx.now }
{
    match c.stage {
        ScrubStage::Visit => when_visited(c, spi::crc_reply(Refusal::SpiRead, c.m, answer, rx)),
        ScrubStage::Write => when_written(
            c,
            spi::done_reply(Refusal::SpiRead, answer, rx.len(), 0),
        ),
        ScrubStage::Back => when_back(c, spi::crc_reply(Refusal::SpiRead, c.m, answer, rx)),
        _ => ScrubNumbers {
            stage: ScrubStage::Refused,
            why: Refusal::WrongAnswer,
            ..c
        },
    }
}

fn differing(c: ScrubNumbers, rewrite: Rewrite) -> Outcome
    ensures { result ≡ Outcome.Scrubbed (differs (scrub_of c).entry c.w c.first rewrite) }
{
    Outcome::Scrubbed(Report::Differ {
        address: c.m,
        read: c.w,
        wanted: c.a,
        mismatches: c.first,
        rewrite,
    })
}

#[tactic(auto, unfolding(crate::specs::Step::outcome_of))]
pub fn scrub_outcome(c: ScrubNumbers) -> Outcome
    ensures { result ≡ outcome_of (scrub_of c) }
{
    match c.stage {
        ScrubStage::Agree => Outcome::Scrubbed(Report::Agree {
            address: c.m,
            mismatches: c.first,
        }),
        ScrubStage::Differ => differing(c, Rewrite::None),
        ScrubStage::Rewritten => differing(c, Rewrite::Back(c.t, c.count)),
        ScrubStage::Unwritten => differing(c, Rewrite::Unread(c.why)),
        ScrubStage::Unread => Outcome::Scrubbed(Report::Unread {
            address: c.m,
            why: c.why,
        }),
        ScrubStage::Refused => Outcome::Refused(c.why),
        _ => Outcome::Running,
    }
}
