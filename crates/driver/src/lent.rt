// A call whose bytes lie in memory of the caller's: numbers by value, the body lent. For boards on which a copy of 76 bytes at each
// exchange is too dear. What the body holds is the call's own: nobody else changes it between two of these functions.
ghost use Rattle.std.specs.Prelude.{◌≡◌, [], length};
ghost use Rattle.send.specs.Send.{next_of, put_into};
ghost use Rattle.driver.specs.Step.{ask_of, step_of, filled_by};
ghost use Rattle.ram.specs.Echo.{echo_bytes};
ghost use Rattle.driver.specs.Send.{body_of};
ghost use Rattle.driver.specs.Finish.{finished_as};
ghost use Rattle.driver.specs.Numbers.{model_of, is_own, is_echo};

use crate::{Family, Numbers};
use call::Outcome;
use ram::RamStage;
use send::Next;
use spi::{Answer, Ask};

// What is asked does not look at the body.
#[tactic(auto, unfolding(crate::specs::Step::ask_of, crate::specs::Numbers::model_of, crate::specs::Start::of_register, crate::specs::Start::of_ram, crate::specs::Start::of_plan, crate::specs::Start::of_push, crate::specs::Start::of_transmit, crate::specs::Start::of_fetch, crate::specs::Start::of_scrub))]
fn ask(c: Numbers) -> Ask
    ensures { result ≡ ask_of (model_of c []) }
{
    match c.family {
        Family::Register(p) => register::register_ask(p),
        Family::Ram(p) => ram::ram_ask(p),
        Family::Plan(p) => configure::plan_ask(p),
        Family::Push(p) => tx_fifo::push_ask(p),
        Family::Transmit(p) => transmit::transmit_ask(p),
        Family::Fetch(p) => rx_fifo::fetch_ask(p),
        Family::Scrub(p) => scrub::scrub_ask(p),
    }
}

fn next_echo(q: Ask, tx: &mut [u8]) -> Next
    ensures { (result ≡ next_of q echo_bytes tx.old) × (tx.new ≡ put_into q echo_bytes tx.old) }
{
    let p = ram::echo_pattern();
    send::put_next(q, &p, tx)
}

fn is_echo(c: Numbers) -> bool
    ensures { result ≡ is_echo c.family }
{
    match c.family {
        Family::Ram(p) => matches!(p.stage, RamStage::EchoWrite),
        _ => false,
    }
}

fn is_own(c: Numbers) -> bool
    ensures { result ≡ is_own c.family }
{
    matches!(c.family, Family::Push(_) | Family::Transmit(_))
}

// What the call asks for now, its bytes put at the front of `tx`. `lent` is what a RAM write was started with.
#[tactic(auto, using(crate::proofs::Bodies::own_body, crate::proofs::Bodies::pattern_body, crate::proofs::Bodies::lent_body, crate::proofs::Bodies::ask_any))]
pub fn next_lent(c: Numbers, body: &[u8; 76], lent: &[u8], tx: &mut [u8]) -> Next
    ensures { (result ≡ next_of (ask_of (model_of c body.now)) (body_of (model_of c body.now) lent.now) tx.old) × (tx.new ≡ put_into (ask_of (model_of c body.now)) (body_of (model_of c body.now) lent.now) tx.old) }
{
    let q = ask(c);
    if is_own(c) {
        send::put_next(q, body, tx)
    } else if is_echo(c) {
        next_echo(q, tx)
    } else {
        send::put_next(q, lent, tx)
    }
}

// Where an answer takes the call. `rx` is what the exchange received.
#[tactic(auto, unfolding(crate::specs::Step::step_of, crate::specs::Numbers::model_of, crate::specs::Start::of_register, crate::specs::Start::of_ram, crate::specs::Start::of_plan, crate::specs::Start::of_push, crate::specs::Start::of_transmit, crate::specs::Start::of_fetch, crate::specs::Start::of_scrub))]
pub fn answer_lent(c: Numbers, answer: Answer, rx: &[u8], body: &mut [u8; 76]) -> Numbers
    ensures { model_of result body.new ≡ step_of (model_of c body.old) answer rx.now }
{
    let family = match c.family {
        Family::Register(p) => Family::Register(register::register_step(p, answer, rx)),
        Family::Ram(p) => Family::Ram(ram::ram_step(p, answer, rx)),
        Family::Plan(p) => Family::Plan(configure::plan_step(p, answer, rx, body)),
        Family::Push(p) => Family::Push(tx_fifo::push_step(p, answer, rx)),
        Family::Transmit(p) => Family::Transmit(transmit::transmit_step(p, answer, rx)),
        Family::Fetch(p) => Family::Fetch(rx_fifo::fetch_step(p, answer, rx, body)),
        Family::Scrub(p) => Family::Scrub(scrub::scrub_step(p, answer, rx)),
    };
    Numbers { family }
}

// How the call ended. What it received goes to its part of `buf`: a payload to the front, a RAM read to the part that it was started
// with. `rx` is what the last exchange received.
#[tactic(auto, unfolding(crate::specs::Finish::finished_as, crate::specs::Step::outcome_of, crate::specs::Step::filled_by, crate::specs::Numbers::model_of, crate::specs::Start::of_register, crate::specs::Start::of_ram, crate::specs::Start::of_plan, crate::specs::Start::of_push, crate::specs::Start::of_transmit, crate::specs::Start::of_fetch, crate::specs::Start::of_scrub, configure::specs::Numbers::plan_in, tx_fifo::specs::Step::outcome_of, transmit::specs::Transmit::transmit_outcome))]
pub fn finish_lent(c: Numbers, body: &[u8; 76], rx: &[u8], buf: &mut [u8]) -> Outcome
    ensures { (result ≡ finished_as (model_of c body.now) (length rx.now) (length buf.old)) × (buf.new ≡ filled_by (model_of c body.now) rx.now buf.old) }
{
    match c.family {
        Family::Register(p) => register::register_outcome(p),
        Family::Ram(p) => ram::ram_finish(p, rx, buf),
        Family::Plan(p) => configure::plan_outcome(p),
        Family::Push(p) => tx_fifo::push_outcome(p),
        Family::Transmit(p) => transmit::transmit_outcome(p),
        Family::Fetch(p) => rx_fifo::fetch_finish(p, body, buf),
        Family::Scrub(p) => scrub::scrub_outcome(p),
    }
}
