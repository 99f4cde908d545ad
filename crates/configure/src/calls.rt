// The calls that are plans. What is refused is refused before any exchange, in the order 20, 21, 24.
ghost use Rattle.std.specs.Prelude.{◌≡◌, true, Some, Ok};
ghost use Rattle.plan.specs.Prepared.{plan_for};
ghost use Rattle.plan.specs.Prepared as plans;
ghost use Rattle.plan.specs.Step.{plan_of, refused_plan};
ghost use Rattle.spi.specs.declared.refusal.Refusal.{Refusal};
ghost use Rattle.changes.specs.Changes.{timing_fits};
ghost use Rattle.areas.specs.Areas.{queue_fits, filter_check};
ghost use Rattle.adjust.specs.Calls.{failed, set_op_mode, configure_osc, configure_io, timing_items, configure_bit_timing, configure_fifo, queue_items, configure_tx_queue, disable_filter, filter_items, configure_filter};
ghost use Rattle.configure.specs.Numbers.{plan_in, Stands};
ghost use Rattle.configure.specs.Moves.{begun_with};

use crate::listed::{put_word, put_words};
use crate::{PlanKind, PlanNumbers, PlanStage};
use areas::{FifoConfiguration, FilterConfiguration, TxQueueConfiguration};
use changes::{BitTimeConfiguration, IoConfiguration, OscillatorConfiguration};
use fifo::is_fifo;
use plan::Change;
use spi::Refusal;

// Of a plan that has none under way.
const NO_CHANGE: Change = Change {
    address: 0,
    keep: 0,
    set: 0,
};

// A plan that was refused before it asked for anything.
#[tactic(auto, unfolding(crate::specs::Numbers::plan_in, crate::specs::Numbers::items_for, plan::specs::Step::arrived_at))]
pub fn refused_plan(why: Refusal) -> PlanNumbers
    ensures { Stands result (refused_plan why) }
{
    PlanNumbers {
        stage: PlanStage::Refused,
        next: 0,
        why,
        ..plan_with(PlanKind::Nothing, 0, NO_CHANGE)
    }
}

// A plan whose first item is a change.
pub fn plan_with(kind: PlanKind, n: u8, change: Change) -> PlanNumbers
    ensures { result ≡ begun_with kind n change }
{
    PlanNumbers {
        kind,
        stage: PlanStage::Read,
        n,
        more: 0,
        next: 1,
        change,
        w: 0,
        why: Refusal::SpiRead,
    }
}

#[tactic(auto, unfolding(crate::specs::Numbers::plan_in, crate::specs::Numbers::items_for, plan::specs::Step::arrived_at, plan::specs::Prepared::modify))]
pub fn modify(address: u32, clear: u32, set: u32) -> PlanNumbers
    ensures { Stands result (plan_for (plans.modify address clear set)) }
{
    if address < 0x1000 {
        plan_with(PlanKind::One, 0, plan::keeping(address as u16, clear, set))
    } else {
        refused_plan(Refusal::BadSetting)
    }
}

#[tactic(auto, unfolding(crate::specs::Numbers::plan_in, crate::specs::Numbers::items_for, plan::specs::Step::arrived_at))]
pub fn verify() -> PlanNumbers
    ensures { Stands result (plan_for plans.verify) }
{
    PlanNumbers {
        stage: PlanStage::EchoWrite,
        more: 31,
        ..plan_with(PlanKind::Verify, 0, NO_CHANGE)
    }
}

#[tactic(auto, using(crate::proofs::Begins::mode_begins, crate::proofs::Begins::mode_refused))]
pub fn set_op_mode(m: u32) -> PlanNumbers
    ensures { Stands result (plan_for (set_op_mode m)) }
{
    if m < 8 {
        let x = changes::mode_change(changes::mode_bits(m));
        plan_with(PlanKind::Mode, m as u8, x)
    } else {
        refused_plan(Refusal::BadSetting)
    }
}

#[tactic(auto, using(crate::proofs::Begins::made, crate::proofs::Begins::pll_asked), unfolding(crate::specs::Numbers::plan_in, crate::specs::Numbers::items_for, plan::specs::Step::arrived_at))]
pub fn configure_osc(o: OscillatorConfiguration) -> PlanNumbers
    ensures { Stands result (plan_for (configure_osc o)) }
{
    let x = changes::oscillator_change(changes::oscillator_bits(o));
    plan_with(PlanKind::Oscillator, 0, x)
}

#[tactic(auto, using(crate::proofs::Begins::made), unfolding(crate::specs::Numbers::plan_in, crate::specs::Numbers::items_for, plan::specs::Step::arrived_at))]
pub fn configure_io(c: IoConfiguration) -> PlanNumbers
    ensures { Stands result (plan_for (configure_io c)) }
{
    plan_with(PlanKind::Io, 0, changes::io_change(changes::io_bits(c)))
}

fn timing_plan(b: BitTimeConfiguration, body: &mut [u8; 76]) -> PlanNumbers
    requires { timing_fits b ≡ true }
    ensures { plan_in result body.new ≡ plan_of failed (timing_items b) }
{
    let first = changes::nominal_bits(b.nominal);
    put_words(
        body,
        0,
        first,
        changes::data_bits(b.data),
        changes::delay_bits(b.data),
    );
    plan_with(PlanKind::Timing, 0, changes::nominal_change(first))
}

#[tactic(auto, unfolding(adjust::specs::Calls::configure_bit_timing))]
pub fn configure_bit_timing(b: BitTimeConfiguration, body: &mut [u8; 76]) -> PlanNumbers
    ensures { plan_in result body.new ≡ plan_for (configure_bit_timing b) }
{
    if changes::timing_fits(b) {
        timing_plan(b, body)
    } else {
        refused_plan(Refusal::BadSetting)
    }
}

#[tactic(auto, using(crate::proofs::Begins::fifo_number_lem), unfolding(crate::specs::Numbers::plan_in, crate::specs::Numbers::items_for, plan::specs::Step::arrived_at, adjust::specs::Calls::configure_fifo))]
pub fn configure_fifo(n: u32, c: FifoConfiguration) -> PlanNumbers
    ensures { Stands result (plan_for (configure_fifo n c)) }
{
    if !is_fifo(n) {
        return refused_plan(Refusal::BadNumber);
    }
    if !areas::fifo_fits(c) {
        return refused_plan(Refusal::BadSetting);
    }
    plan_with(PlanKind::One, 0, areas::fifo_change(n as u8, c))
}

fn queue_plan(c: TxQueueConfiguration, body: &mut [u8; 76]) -> PlanNumbers
    requires { queue_fits c ≡ true }
    ensures { plan_in result body.new ≡ plan_of failed (queue_items (Some c)) }
{
    put_word(body, 0, areas::queue_bits(c));
    plan_with(PlanKind::Queue, 0, areas::enable_change(true))
}

#[tactic(auto, unfolding(crate::specs::Numbers::plan_in, crate::specs::Numbers::items_for, plan::specs::Step::arrived_at, adjust::specs::Calls::configure_tx_queue))]
pub fn configure_tx_queue(q: Option<TxQueueConfiguration>, body: &mut [u8; 76]) -> PlanNumbers
    ensures { plan_in result body.new ≡ plan_for (configure_tx_queue q) }
{
    let Some(c) = q else {
        return plan_with(PlanKind::Io, 0, areas::enable_change(false));
    };
    if areas::queue_fits(c) {
        queue_plan(c, body)
    } else {
        refused_plan(Refusal::BadSetting)
    }
}

#[tactic(auto, unfolding(crate::specs::Numbers::plan_in, crate::specs::Numbers::items_for, plan::specs::Step::arrived_at, adjust::specs::Calls::disable_filter))]
pub fn disable_filter(f: u32) -> PlanNumbers
    ensures { Stands result (plan_for (disable_filter f)) }
{
    if f < 32 {
        plan_with(PlanKind::One, 0, areas::off_change(f as u8))
    } else {
        refused_plan(Refusal::BadNumber)
    }
}

fn filter_plan(f: u32, c: FilterConfiguration, body: &mut [u8; 76]) -> PlanNumbers
    requires { filter_check f c ≡ Ok tt }
    ensures { plan_in result body.new ≡ plan_of Refusal.SpiRead (filter_items f c) }
{
    let n = f as u8;
    put_words(
        body,
        0,
        areas::object_bits(c.object, c.mode),
        areas::mask_bits(c.mask, c.mode),
        areas::on_bits(n, c.fifo),
    );
    plan_with(PlanKind::Filter, n, areas::off_change(n))
}

#[tactic(auto, unfolding(adjust::specs::Calls::configure_filter))]
pub fn configure_filter(f: u32, c: FilterConfiguration, body: &mut [u8; 76]) -> PlanNumbers
    ensures { plan_in result body.new ≡ plan_for (configure_filter f c) }
{
    match areas::filter_check(f, c) {
        Ok(()) => filter_plan(f, c, body),
        Err(r) => refused_plan(r),
    }
}
