// Registers as they read.
ghost use Rattle.std.specs.Prelude.{◌≡◌, ◌≤◌, ◌<◌};
ghost use Rattle.place.specs.declared.Register.{Register};
ghost use Rattle.bank.specs.Registers.{mode_of, shown_at, queue_acts, queue_shown, word_of};

use chip::OscillatorControl;
use configuration::CanControl;
use place::Register;
use state::{Model, fifo_at, frozen_at, word_at};

#[tactic(auto, unfolding(crate::specs::Registers::mode_of))]
fn mode(m: Model) -> u32
    ensures { (result ≡ mode_of m) × (result < 8) }
{
    if m.fixed.configuring {
        return 4;
    }
    CanControl(m.setup.con).reqop()
}

#[tactic(auto, unfolding(crate::specs::Registers::word_of))]
fn con_word(m: Model) -> u32
    ensures { result ≡ word_of m Register.Con }
{
    CanControl(m.setup.con)
        .with_opmod(mode(m))
        .with_txqen(m.fixed.queue)
        .0
}

#[tactic(auto, unfolding(crate::specs::Registers::word_of))]
fn osc_word(m: Model) -> u32
    ensures { result ≡ word_of m Register.Osc }
{
    let o = OscillatorControl(m.setup.osc);
    o.with_pllrdy(o.pllen()).0
}

// Where the slot that FIFO n shows begins in RAM.
#[tactic(auto, unfolding(crate::specs::Registers::shown_at))]
pub fn shown_at(m: Model, n: u8) -> usize
    ensures { (result ≡ shown_at m n) × (result ≤ 1000000) }
{
    let k = ring::shown(frozen_at(m, n), fifo_at(m, n));
    m.fixed.slot_at(n, k)
}

#[tactic(auto, unfolding(crate::specs::Registers::word_of))]
fn status_word(m: Model, n: u8) -> u32
    ensures { result ≡ word_of m (Register.Status n) }
{
    if m.fixed.configuring {
        return 0;
    }
    ring::status(frozen_at(m, n), fifo_at(m, n))
}

#[tactic(auto, unfolding(crate::specs::Registers::word_of))]
fn address_word(m: Model, n: u8) -> u32
    ensures { result ≡ word_of m (Register.Address n) }
{
    if m.fixed.configuring {
        return 0;
    }
    shown_at(m, n) as u32
}

// Where the slot that the queue shows begins in RAM.
#[tactic(auto, unfolding(crate::specs::Registers::queue_shown))]
fn queue_shown(m: Model) -> usize
    ensures { (result ≡ queue_shown m) × (result ≤ 1000000) }
{
    m.fixed.slot_at(0, m.queue.shown as u32)
}

fn queue_acts(m: Model) -> bool
    ensures { result ≡ queue_acts m.fixed }
{
    !m.fixed.configuring && m.fixed.queue
}

#[tactic(auto, unfolding(crate::specs::Registers::word_of))]
fn queue_status_word(m: Model) -> u32
    ensures { result ≡ word_of m Register.QueueStatus }
{
    if queue_acts(m) {
        return ring::queue::status(frozen_at(m, 0), m.queue);
    }
    0
}

#[tactic(auto, unfolding(crate::specs::Registers::word_of))]
fn queue_address_word(m: Model) -> u32
    ensures { result ≡ word_of m Register.QueueAddress }
{
    if queue_acts(m) {
        return queue_shown(m) as u32;
    }
    0
}

#[tactic(auto, unfolding(crate::specs::Registers::word_of, ring::specs::Registers::control))]
pub fn word(m: Model, r: Register) -> u32
    ensures { result ≡ word_of m r }
{
    match r {
        Register::Con => con_word(m),
        Register::Osc => osc_word(m),
        Register::Plain(k) => word_at(&m.setup.plain, k),
        Register::Filter(k) => word_at(&m.setup.filter, k),
        Register::Object(k) => word_at(&m.setup.object, k),
        Register::Mask(k) => word_at(&m.setup.mask, k),
        Register::Control(n) => ring::control(frozen_at(m, n), fifo_at(m, n)),
        Register::Status(n) => status_word(m, n),
        Register::Address(n) => address_word(m, n),
        Register::QueueControl => ring::control(frozen_at(m, 0), m.queue),
        Register::QueueStatus => queue_status_word(m),
        Register::QueueAddress => queue_address_word(m),
    }
}
