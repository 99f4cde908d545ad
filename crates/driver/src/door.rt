// A call by value: what it asks for, where an answer takes it, how it ended.
ghost use Rattle.std.specs.Prelude.{◌≡◌, length};
ghost use Rattle.send.specs.Send.{next_of, put_into};
ghost use Rattle.driver.specs.Step.{ask_of, step_of, filled_by};
ghost use Rattle.driver.specs.Send.{body_of};
ghost use Rattle.driver.specs.Finish.{finished_as, accepted_by, place_of};
ghost use Rattle.driver.specs.Demand1.{left};
ghost use Rattle.driver.specs.Numbers.{call_of};

use crate::{Call, Family, Numbers, lent};
use call::Outcome;
use send::Next;
use spi::Answer;
use watch::Scrubber;

// What the call asks for now, its bytes put at the front of `tx`. `lent` is what a RAM write was started with, otherwise not looked
// at.
#[tactic(auto, unfolding(crate::specs::Numbers::call_of))]
pub fn next(call: Call, lent: &[u8], tx: &mut [u8]) -> Next
    ensures { (result ≡ next_of (ask_of (call_of call)) (body_of (call_of call) lent.now) tx.old) × (tx.new ≡ put_into (ask_of (call_of call)) (body_of (call_of call) lent.now) tx.old) }
{
    let c = call.numbers;
    lent::next_lent(c, &call.body, lent, tx)
}

// Where an answer takes the call. `rx` is what the exchange received: as many bytes as `next` wanted.
#[tactic(auto, unfolding(crate::specs::Numbers::call_of))]
pub fn answer(mut call: Call, answer: Answer, rx: &[u8]) -> Call
    ensures { call_of result ≡ step_of (call_of call) answer rx.now }
{
    let c = call.numbers;
    let next = lent::answer_lent(c, answer, rx, &mut call.body);
    call.numbers = next;
    call
}

// How the call ended, the lent buffer filled. `rx` is what the last exchange received. 28 where the buffer is too small, 26 where a RAM
// read is given other bytes than it received: then no byte is changed, and the call may be finished again.
#[tactic(auto, unfolding(crate::specs::Numbers::call_of))]
pub fn finish(call: Call, rx: &[u8], buf: &mut [u8]) -> Outcome
    ensures { (result ≡ finished_as (call_of call) (length rx.now) (length buf.old)) × (buf.new ≡ filled_by (call_of call) rx.now buf.old) }
{
    let c = call.numbers;
    lent::finish_lent(c, &call.body, rx, buf)
}

// Whether the message of a push or a transmit is in the chip: also where the transmit's request was refused.
#[tactic(auto, unfolding(crate::specs::Finish::accepted_by, crate::specs::Numbers::call_of, crate::specs::Numbers::model_of, crate::specs::Start::of_register, crate::specs::Start::of_ram, crate::specs::Start::of_plan, crate::specs::Start::of_push, crate::specs::Start::of_transmit, crate::specs::Start::of_fetch, crate::specs::Start::of_scrub))]
pub fn accepted(call: Call) -> bool
    ensures { result ≡ accepted_by (call_of call) }
{
    match call.numbers.family {
        Family::Push(p) => tx_fifo::push_done(p),
        Family::Transmit(p) => transmit::accepted(p),
        _ => false,
    }
}

// The scrubber of a scrub step: moved on where the step reported, as it was where the step was refused or is not over. Of a call of
// another kind: at the first entry.
#[tactic(auto, unfolding(crate::specs::Finish::place_of, crate::specs::Numbers::call_of, crate::specs::Numbers::model_of, crate::specs::Start::of_register, crate::specs::Start::of_ram, crate::specs::Start::of_plan, crate::specs::Start::of_push, crate::specs::Start::of_transmit, crate::specs::Start::of_fetch, crate::specs::Start::of_scrub))]
pub fn scrubber(call: Call) -> Scrubber
    ensures { result.place ≡ place_of (call_of call) }
{
    let place = match call.numbers.family {
        Family::Scrub(p) => p.place,
        _ => 0,
    };
    Scrubber { place }
}

// The most exchanges and waits that are left.
#[tactic(auto, unfolding(crate::specs::Numbers::call_of))]
pub fn turns(call: Call) -> u32
    ensures { result ≡ left (call_of call) }
{
    let c = call.numbers;
    crate::count::turns_lent(c, &call.body)
}

// A call in two parts, for `next_lent`, `answer_lent` and `finish_lent`.
pub fn numbers_of(call: Call) -> Numbers
    ensures { result ≡ call.numbers }
{
    call.numbers
}

pub fn body_of(call: Call) -> [u8; 76]
    ensures { result ≡ call.body }
{
    call.body
}
