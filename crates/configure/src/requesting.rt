// The request calls, by which a FIFO, or the transmit queue, is to send what it holds: control is read, and written with TXREQ 1.
ghost use Rattle.std.specs.Prelude.{◌≡◌};
ghost use Rattle.transmit.specs.Transmit.{request_start, queue_request_start};
ghost use Rattle.configure.specs.Numbers.{Stands};

use crate::calls::{plan_with, refused_plan};
use crate::{PlanKind, PlanNumbers};
use fifo::is_fifo;
use spi::Refusal;

#[tactic(auto, using(crate::proofs::Begins::fifo_number_lem), unfolding(crate::specs::Numbers::plan_in, crate::specs::Numbers::items_for, plan::specs::Step::arrived_at, transmit::specs::Transmit::request_start))]
pub fn request(fifo: u32) -> PlanNumbers
    ensures { Stands result (request_start fifo) }
{
    if is_fifo(fifo) {
        plan_with(PlanKind::One, 0, areas::request_change(fifo as u8))
    } else {
        refused_plan(Refusal::BadNumber)
    }
}

// Of the queue, FIFO 0: nothing is tested.
#[tactic(auto, unfolding(crate::specs::Numbers::plan_in, crate::specs::Numbers::items_for, plan::specs::Step::arrived_at, transmit::specs::Transmit::queue_request_start))]
pub fn queue_request() -> PlanNumbers
    ensures { Stands result queue_request_start }
{
    plan_with(PlanKind::One, 0, areas::request_change(0))
}
