// A frame arrives for a FIFO.
ghost use Rattle.std.specs.Prelude.{◌≡◌, not, ◌<◌, ◌≤◌, ltb, leb, length, if◌then◌else◌, Ok, Err, IfOk};
ghost use Rattle.fifo.specs.Control.{payload_of};
ghost use Rattle.field.specs.Field.{Fits};
ghost use Rattle.header.specs.Header.{DLC, FILHIT, top_id};
ghost use Rattle.ring.specs.Ring.{claimed, depth};
ghost use Rattle.state.specs.Model.{fifo_at, with_fifo, written};
ghost use Rattle.bus.specs.declared.arrival.Undelivered.{Undelivered};
ghost use Rattle.bus.specs.Held.{slot_of};
ghost use Rattle.bus.specs.Bus.{stamp_for, delivered, receives, appended, give, deliver_of};

use crate::held;
use fifo::{ControlWord, FifoControl};
use header::Header;
use spi::Refusal;
use state::{Model, fifo_at, frozen_at};

// A frame that arrives, and when.
#[derive(Clone, Copy)]
pub struct Arrival<'a> {
    pub header: Header,
    pub dlc: u32,
    pub time: u32,
    pub payload: &'a [u8],
}

// Why a frame is not delivered: it is refused, or its FIFO turns it down.
#[derive(Clone, Copy)]
pub enum Undelivered {
    Refused(Refusal),
    Configuration,
    NotReceiving,
    TooLong,
    Full,
}

#[derive(Clone, Copy)]
pub struct Delivered {
    pub delivery: Result<(), Undelivered>,
    pub model: Model,
}

fn told(delivery: Result<(), Undelivered>, m: Model) -> Delivered
    ensures { result ≡ delivered delivery m }
{
    Delivered { delivery, model: m }
}

fn stamp_of(m: Model, n: u8, time: u32) -> Option<u32>
    ensures { result ≡ stamp_for m n time }
{
    ring::stamped(frozen_at(m, n)).then_some(time)
}

// The object behind those held.
fn placed(m: Model, n: u8, object: &[u8]) -> Model
    requires { (fifo_at m n).count < 255 }
    ensures { result ≡ with_fifo (written m (slot_of m n (fifo_at m n).count) object.now) n (claimed (fifo_at m n)) }
{
    let f = fifo_at(m, n);
    let at = held::slot_of(m, n, f.count);
    state::with_fifo(state::written(m, at, object), n, ring::claimed(f))
}

#[tactic(auto, unfolding(crate::specs::Bus::receives))]
fn receives(m: Model, n: u8) -> bool
    ensures { result ≡ receives m n }
{
    fifo::is_fifo(n as u32) && !ring::sending(frozen_at(m, n))
}

// The first cause for which FIFO n turns down a payload of `len` bytes, or none.
fn cause(
    configuring: bool,
    receives: bool,
    w: u32,
    count: u8,
    len: usize,
) -> Result<(), Undelivered>
    ensures first { result ≡ (if configuring then Err Undelivered.Configuration else if not receives then Err Undelivered.NotReceiving else if ltb (payload_of w) len then Err Undelivered.TooLong else if leb (depth w) count then Err Undelivered.Full else Ok tt) }
    ensures room { IfOk result (λ u. count < 32) }
{
    if configuring {
        return Err(Undelivered::Configuration);
    }
    if !receives {
        return Err(Undelivered::NotReceiving);
    }
    if FifoControl(w).payload_size() < len {
        return Err(Undelivered::TooLong);
    }
    if ring::depth(w) <= count as u32 {
        return Err(Undelivered::Full);
    }
    Ok(())
}

// An object of a payload of `len` bytes: turned down by the first cause, or appended behind those held. One answer for each of
// the three models that there may be: each copies its model.
#[tactic(auto, unfolding(crate::specs::Bus::appended))]
fn appended(m: Model, n: u8, len: usize, object: &[u8]) -> Delivered
    ensures { result ≡ appended m n len object.now }
{
    let delivery = cause(
        m.fixed.configuring,
        receives(m, n),
        frozen_at(m, n),
        fifo_at(m, n).count,
        len,
    );
    match delivery {
        Ok(()) => told(delivery, placed(m, n, object)),
        Err(Undelivered::Full) => told(
            delivery,
            state::with_fifo(m, n, ring::overflowed(true, fifo_at(m, n))),
        ),
        Err(_) => told(delivery, m),
    }
}

// A FIFO is given a frame that filter `hit` took.
#[tactic(auto, using(crate::proofs::Answers::arriving_most, crate::proofs::Answers::fits, crate::proofs::Answers::front), unfolding(crate::specs::Bus::give))]
pub fn give(m: Model, n: u8, hit: u32, a: Arrival<'_>) -> Delivered
    requires { (a.header.id ≤ top_id a.header.extended) × Fits DLC a.dlc × Fits FILHIT hit × (length a.payload.now ≤ 64) }
    ensures { let f = a.entry in result ≡ give m n hit f.dlc f.header f.time f.payload.now }
{
    let mut object = [0u8; 76];
    let stamp = stamp_of(m, n, a.time);
    let len = message::arrive(a.header, a.dlc, hit, stamp, a.payload, &mut object);
    appended(m, n, a.payload.len(), &object[..len])
}

#[tactic(auto, unfolding(crate::specs::Bus::deliver_of))]
pub fn deliver(m: Model, n: u32, a: Arrival<'_>) -> Delivered
    ensures { let f = a.entry in result ≡ deliver_of m n f.header f.dlc f.time f.payload.now }
{
    if !fifo::is_fifo(n) {
        return told(Err(Undelivered::Refused(Refusal::BadNumber)), m);
    }
    match message::check_arrival(a.header, a.dlc, a.payload.len()) {
        Ok(()) => give(m, n as u8, 0, a),
        Err(r) => told(Err(Undelivered::Refused(r)), m),
    }
}
