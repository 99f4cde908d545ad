// Registers written.
ghost use Rattle.std.specs.Prelude.{◌≡◌, if◌then◌else◌};
ghost use Rattle.field.specs.Field.{flag};
ghost use Rattle.configuration.specs.CanControl.{TXQEN};
ghost use Rattle.place.specs.declared.Register.{Register};
ghost use Rattle.bank.specs.Registers.{granted, turned_all, con_set, settled, con_written, frozen_set, control_written, status_written, queue_written, register_written};

use configuration::CanControl;
use fifo::{ControlWord, FifoStatus, TxQueueControl};
use place::Register;
use ring::Layout;
use state::{Fixed, Model, fifo_at, frozen_at, set_word, with_fifo, with_queue};

// The next chip, and whether a change of mode that was asked for was granted; 27 where it wasn't.
#[derive(Clone, Copy)]
pub struct Written {
    pub model: Model,
    pub granted: bool,
}

#[tactic(auto, unfolding(crate::specs::Registers::granted))]
fn granted(x: Fixed, w: u32) -> bool
    ensures { result ≡ granted x w }
{
    let layout = Layout {
        queue: CanControl(w).txqen(),
        words: &x.frozen,
    };
    !CanControl(w).stef() && layout.end(31) <= 2048
}

// Each FIFO's part of entering Configuration or leaving it, and the queue's.
fn turned(m: Model, entering: bool) -> Model
    ensures { result ≡ turned_all entering m }
{
    let mut fifos = m.fifo;
    for f in fifos.iter_mut() {
        *f = ring::turned(entering, *f);
    }
    Model {
        fifo: fifos,
        queue: ring::turned(entering, m.queue),
        ..m
    }
}

// TXQEN counts by the mode that a write finds.
fn queue_after(configuring: bool, queue: bool, w: u32) -> bool
    ensures { result ≡ (if configuring then flag TXQEN w else queue) }
{
    if configuring {
        CanControl(w).txqen()
    } else {
        queue
    }
}

fn with_con(m: Model, w: u32, configuring: bool) -> Model
    ensures { result ≡ con_set m w configuring }
{
    let queue = queue_after(m.fixed.configuring, m.fixed.queue, w);
    let mut d = m;
    d.setup.con = w;
    d.fixed.queue = queue;
    d.fixed.configuring = configuring;
    d
}

fn settled(m: Model) -> Written
    ensures { result ≡ settled m }
{
    Written {
        model: m,
        granted: true,
    }
}

#[tactic(auto, unfolding(crate::specs::Registers::con_written))]
fn con_written(m: Model, w: u32) -> Written
    ensures { result ≡ con_written m w }
{
    if CanControl(w).reqop() == 4 {
        if m.fixed.configuring {
            return settled(with_con(m, w, true));
        }
        return settled(with_con(turned(m, true), w, true));
    }
    if m.fixed.configuring {
        if granted(m.fixed, w) {
            return settled(with_con(turned(m, false), w, false));
        }
        return Written {
            model: with_con(m, w, true),
            granted: false,
        };
    }
    settled(with_con(m, w, false))
}

fn with_frozen(m: Model, n: u8, w: u32) -> Model
    ensures { result ≡ frozen_set m n w }
{
    let mut d = m;
    set_word(&mut d.fixed.frozen, n as usize, w);
    d
}

#[tactic(auto, unfolding(crate::specs::Registers::control_written))]
fn control_written(m: Model, n: u8, w: u32) -> Model
    ensures { result ≡ control_written m n w }
{
    let f = fifo_at(m, n);
    if m.fixed.configuring {
        return with_fifo(with_frozen(m, n, w), n, ring::configured(w, f));
    }
    with_fifo(m, n, ring::commanded(true, frozen_at(m, n), w, f))
}

#[tactic(auto, unfolding(crate::specs::Registers::status_written))]
fn status_written(m: Model, n: u8, w: u32) -> Model
    ensures { result ≡ status_written m n w }
{
    if FifoStatus(w).rxovif() {
        return m;
    }
    with_fifo(m, n, ring::overflowed(false, fifo_at(m, n)))
}

#[tactic(auto, unfolding(crate::specs::Registers::queue_written))]
fn queue_written(m: Model, w: u32) -> Model
    ensures { result ≡ queue_written m w }
{
    let q = m.queue;
    if m.fixed.configuring {
        let frozen = TxQueueControl(w).with_txen(true).0;
        return with_queue(with_frozen(m, 0, frozen), ring::configured(w, q));
    }
    with_queue(m, ring::commanded(m.fixed.queue, frozen_at(m, 0), w, q))
}

#[tactic(auto, unfolding(crate::specs::Registers::register_written))]
pub fn registered(m: Model, r: Register, w: u32) -> Written
    ensures { result ≡ register_written m r w }
{
    let mut d = m;
    match r {
        Register::Con => return con_written(m, w),
        Register::Osc => d.setup.osc = w,
        Register::Plain(k) => set_word(&mut d.setup.plain, k, w),
        Register::Filter(k) => set_word(&mut d.setup.filter, k, w),
        Register::Object(k) => set_word(&mut d.setup.object, k, w),
        Register::Mask(k) => set_word(&mut d.setup.mask, k, w),
        Register::Control(n) => d = control_written(m, n, w),
        Register::Status(n) => d = status_written(m, n, w),
        Register::QueueControl => d = queue_written(m, w),
        // Of these no write does anything.
        Register::Address(_) | Register::QueueStatus | Register::QueueAddress => {}
    }
    settled(d)
}
