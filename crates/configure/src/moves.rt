// The numbers of a plan at the beginning of an item.
ghost use Rattle.std.specs.Prelude.{◌≡◌};
ghost use Rattle.configure.specs.Moves.{polls, waits, at_item};

use crate::{PlanNumbers, PlanStage};
use plan::{Item, Poll};

fn polls(p: Poll) -> PlanStage
    ensures { result ≡ polls p }
{
    match p {
        Poll::Mode(_, _) => PlanStage::ModePoll,
        Poll::Pll => PlanStage::PllPoll,
    }
}

pub fn waits(p: Poll) -> PlanStage
    ensures { result ≡ waits p }
{
    match p {
        Poll::Mode(_, _) => PlanStage::ModeWait,
        Poll::Pll => PlanStage::PllWait,
    }
}

// `next` is the place of the item after it.
pub fn begin(c: PlanNumbers, next: u8, item: Item) -> PlanNumbers
    ensures { result ≡ at_item c next item }
{
    let mut p = PlanNumbers { next, ..c };
    p.stage = match item {
        Item::Change(x) => {
            p.change = x;
            PlanStage::Read
        }
        Item::Poll(q, more) => {
            p.more = more;
            polls(q)
        }
        Item::Echo => {
            p.more = 31;
            PlanStage::EchoWrite
        }
        Item::Nothing => PlanStage::Done,
    };
    p
}
