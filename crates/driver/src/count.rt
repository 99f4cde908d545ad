// How many exchanges and waits are left.
ghost use Rattle.std.specs.Prelude.{◌≡◌, ◌<◌, [], if◌then◌else◌};
ghost use Rattle.register.specs.Numbers.{register_of};
ghost use Rattle.ram.specs.Numbers.{ram_of};
ghost use Rattle.tx_fifo.specs.Numbers.{push_at};
ghost use Rattle.transmit.specs.Numbers.{request_of, transmit_in};
ghost use Rattle.fetch.specs.Numbers.{fetch_at};
ghost use Rattle.scrub.specs.Numbers.{scrub_of};
ghost use Rattle.plan.specs.Talk.{plan_left};
ghost use Rattle.driver.specs.Demand1.{tries_left, register_left, ram_left, push_left, fetch_left, scrub_left, left};
ghost use Rattle.driver.specs.Numbers.{model_of};

use crate::{Family, Numbers};
use fetch::{FetchNumbers, FetchStage};
use fifo::is_fifo;
use ram::{RamNumbers, RamStage};
use register::{RegisterNumbers, RegisterStage};
use scrub::{ScrubNumbers, ScrubStage};
use transmit::{RequestStage, TransmitNumbers};
use tx_fifo::{PushNumbers, PushStage};

// Three tries, of which so many mismatched; one is left while it asks, whatever the number.
fn tries_left(seen: u8) -> u32
    ensures { (result ≡ tries_left seen) × (result < 1000) }
{
    if seen < 2 { 3 - seen as u32 } else { 1 }
}

fn register_turns(c: RegisterNumbers) -> u32
    ensures { result ≡ register_left (register_of c) }
{
    match c.stage {
        RegisterStage::Reset | RegisterStage::Read | RegisterStage::Write | RegisterStage::Mode =>
            1,
        RegisterStage::Checked => tries_left(c.seen),
        _ => 0,
    }
}

fn ram_turns(c: RamNumbers) -> u32
    ensures { result ≡ ram_left (ram_of c) }
{
    match c.stage {
        RamStage::EchoWrite => 2,
        RamStage::Read | RamStage::Write | RamStage::EchoRead => 1,
        RamStage::Received | RamStage::Done | RamStage::Refused => 0,
    }
}

// `behind` are asked after the push, unless that is refused.
fn push_turns(c: PushNumbers, behind: u32) -> u32
    requires { behind < 1000 }
    ensures { result ≡ push_left (push_at c) behind }
{
    match c.stage {
        PushStage::Enabled => 6 + behind,
        PushStage::Control => 5 + behind,
        PushStage::Status | PushStage::BareAddress => 4 + behind,
        PushStage::Address | PushStage::BareWrite => 3 + behind,
        PushStage::Write | PushStage::BareControl => 2 + behind,
        PushStage::Commit => 1 + behind,
        PushStage::Done => behind,
        PushStage::Refused => 0,
    }
}

#[tactic(auto, using(crate::proofs::Counts::none_behind))]
fn stage_turns(p: PushNumbers, stage: RequestStage) -> u32
    ensures { (result ≡ plan_left (request_of stage p)) × (result < 1000) }
{
    match stage {
        RequestStage::Read => 2,
        RequestStage::Write => 1,
        RequestStage::Done | RequestStage::Late | RequestStage::Refused => 0,
    }
}

// A request that has begun is at its own stage; before that it reads and writes, where there is such a FIFO.
#[tactic(auto, using(crate::proofs::Counts::request_left))]
fn request_turns(c: TransmitNumbers) -> u32
    ensures { (result ≡ plan_left (transmit_in c []).request) × (result < 1000) }
{
    if tx_fifo::push_done(c.push) {
        stage_turns(c.push, c.request)
    } else if is_fifo(c.push.fifo as u32) {
        2
    } else {
        0
    }
}

fn transmit_turns(c: TransmitNumbers) -> u32
    ensures { result ≡ push_left (push_at c.push) (plan_left (transmit_in c []).request) }
{
    push_turns(c.push, request_turns(c))
}

fn fetch_turns(c: FetchNumbers) -> u32
    ensures { result ≡ fetch_left (fetch_at c) }
{
    match c.stage {
        FetchStage::Control => 9,
        FetchStage::Status => 8,
        FetchStage::Address => 7,
        FetchStage::Header => 6,
        FetchStage::Again => 5,
        FetchStage::Time => 4,
        FetchStage::Body => 3,
        FetchStage::Next => 2,
        FetchStage::Commit => 1,
        _ => 0,
    }
}

// A write and three checked reads, where a rewrite was told.
fn behind_visit(rewrite: bool) -> u32
    ensures { (result ≡ (if rewrite then 4 else 0)) × (result < 1000) }
{
    if rewrite { 4 } else { 0 }
}

fn scrub_turns(c: ScrubNumbers) -> u32
    ensures { result ≡ scrub_left (scrub_of c) }
{
    match c.stage {
        ScrubStage::Visit => tries_left(c.count) + behind_visit(c.rewrite),
        ScrubStage::Write => 4,
        ScrubStage::Back => tries_left(c.count),
        _ => 0,
    }
}

#[tactic(auto, unfolding(crate::specs::Numbers::model_of, crate::specs::Start::of_register, crate::specs::Start::of_ram, crate::specs::Start::of_plan, crate::specs::Start::of_push, crate::specs::Start::of_transmit, crate::specs::Start::of_fetch, crate::specs::Start::of_scrub, rx_fifo::specs::Numbers::fetch_of))]
pub fn turns_lent(c: Numbers, body: &[u8; 76]) -> u32
    ensures { result ≡ left (model_of c body.now) }
{
    match c.family {
        Family::Register(p) => register_turns(p),
        Family::Ram(p) => ram_turns(p),
        Family::Plan(p) => configure::plan_turns(p, body),
        Family::Push(p) => push_turns(p, 0),
        Family::Transmit(p) => transmit_turns(p),
        Family::Fetch(p) => fetch_turns(p),
        Family::Scrub(p) => scrub_turns(p),
    }
}
