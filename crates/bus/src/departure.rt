// The chip sends from a FIFO.
ghost use Rattle.std.specs.Prelude.{◌≡◌, Err};
ghost use Rattle.message.specs.Message.{Decoding};
ghost use Rattle.message.specs.Structs.{decoded_as};
ghost use Rattle.bus.specs.Bus.{output_of, sends, send_output, send_model, sent_as};

use crate::held;
use fifo::{ControlWord, FifoControl};
use message::{Frame, Undecoded};
use spi::Refusal;
use state::{Model, fifo_at, frozen_at};

// Why no frame is sent: the message that was taken does not decode; nothing is to be sent; the call is refused.
#[derive(Clone, Copy)]
pub enum Unsent {
    NoFrame,
    Nothing,
    Refused(Refusal),
}

#[derive(Clone, Copy)]
pub struct Sent {
    pub sent: Result<Frame, Unsent>,
    pub model: Model,
}

#[tactic(auto, unfolding(crate::specs::Bus::sends))]
fn sends(m: Model, n: u8) -> bool
    ensures { result ≡ sends m n }
{
    let f = fifo_at(m, n);
    let w = frozen_at(m, n);
    ring::sending(w) && FifoControl(f.control).txreq() && 0 < f.count
}

pub fn not_sent(why: Unsent, m: Model) -> Sent
    ensures { result ≡ record { sent = Err why; model = m } }
{
    Sent {
        sent: Err(why),
        model: m,
    }
}

// The answer for the message that was taken.
pub fn taken(item: Result<Frame, Undecoded>, m: Model) -> Sent
    ensures { (d : Decoding) → item ≡ decoded_as d → result ≡ sent_as (output_of d) m }
{
    Sent {
        sent: item.ok().ok_or(Unsent::NoFrame),
        model: m,
    }
}

#[tactic(auto, using(crate::proofs::Laws::fifo_fits_lem, crate::proofs::Laws::sends_one), unfolding(crate::specs::Bus::send_output, crate::specs::Bus::send_model))]
pub fn send(m: Model, n: u32) -> Sent
    ensures { result ≡ sent_as (send_output m n) (send_model m n) }
{
    if !fifo::is_fifo(n) {
        return not_sent(Unsent::Refused(Refusal::BadNumber), m);
    }
    let n = n as u8;
    if !sends(m, n) {
        return not_sent(Unsent::Nothing, m);
    }
    let item = held::item_at(m, n, 0);
    let next = state::with_fifo(m, n, ring::sent(frozen_at(m, n), fifo_at(m, n)));
    taken(item, next)
}
