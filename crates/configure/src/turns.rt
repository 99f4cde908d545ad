// How many exchanges and waits of a plan are left.
ghost use Rattle.std.specs.Prelude.{◌≡◌, ◌<◌, drop};
ghost use Rattle.plan.specs.Step.{filled};
ghost use Rattle.plan.specs.Talk.{asks_of, all_asks, item_left, plan_left};
ghost use Rattle.configure.specs.Numbers.{items_in, place_in, plan_in};

use crate::listed::{count_of, item_of};
use crate::{PlanNumbers, PlanStage};
use plan::Item;

fn item_turns(item: Item) -> u32
    ensures { (result ≡ asks_of item) × (result < 512) }
{
    match item {
        Item::Change(_) => 2,
        Item::Poll(_, more) => 1 + 2 * (more as u32),
        Item::Echo => 64,
        Item::Nothing => 0,
    }
}

// Of the items behind the one where the plan stands.
fn turns_behind(c: PlanNumbers, body: &[u8; 76]) -> u32
    ensures { (result ≡ all_asks (drop c.next (filled (items_in c body.now)))) × (result < 0x20000) }
{
    let mut sum = 0;
    for i in c.next..count_of(c) {
        sum += item_turns(item_of(c, i, body));
    }
    sum
}

// Of the item where the plan stands, and what is behind; nothing comes after the end.
fn place_turns(c: PlanNumbers, behind: u32) -> u32
    requires { behind < 0x20000 }
    ensures { result ≡ item_left (place_in c) behind }
{
    let more = 2 * (c.more as u32) + behind;
    match c.stage {
        PlanStage::Read => 2 + behind,
        PlanStage::Write => 1 + behind,
        PlanStage::ModePoll | PlanStage::PllPoll | PlanStage::EchoRead => 1 + more,
        PlanStage::ModeWait | PlanStage::PllWait | PlanStage::EchoWrite => 2 + more,
        PlanStage::Done | PlanStage::Refused => 0,
    }
}

#[tactic(auto, unfolding(crate::specs::Numbers::plan_in))]
pub fn plan_turns(c: PlanNumbers, body: &[u8; 76]) -> u32
    ensures { result ≡ plan_left (plan_in c body.now) }
{
    place_turns(c, turns_behind(c, body))
}
