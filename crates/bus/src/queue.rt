// The messages that the transmit queue holds, and the chip sends one.
ghost use Rattle.std.specs.Prelude.{◌≡◌, ◌*◌, ◌≤◌, ◌<◌, get_or, unwrap_or, IfSome};
ghost use Rattle.words.specs.Words.{le_at};
ghost use Rattle.message.specs.Structs.{decoded_as};
ghost use Rattle.ring.specs.Queue.{no_slot, better};
ghost use Rattle.bus.specs.Bus.{sent_as};
ghost use Rattle.bus.specs.Queue.{queue_slot, queue_holds, queue_item, rank_at, winner, queue_output, queue_model};

use crate::departure::{Sent, Unsent};
use crate::{departure, held};
use fifo::{ControlWord, TxQueueControl};
use message::{Frame, Undecoded};
use state::{Model, frozen_at};

#[tactic(auto, unfolding(crate::specs::Queue::queue_slot))]
fn queue_slot(m: Model, k: u8) -> usize
    ensures { (result ≡ queue_slot m k) × (result ≤ 1000000) }
{
    m.fixed.slot_at(0, k as u32)
}

#[tactic(auto, unfolding(crate::specs::Queue::queue_holds))]
pub fn queue_holds(m: Model, k: u8) -> bool
    ensures { result ≡ queue_holds m k }
{
    m.fixed.queue && (k as u32) < ring::depth(frozen_at(m, 0)) && m.queue.held[k as usize]
}

#[tactic(auto, unfolding(crate::specs::Queue::queue_item))]
pub fn queue_item(m: Model, k: u8) -> Result<Frame, Undecoded>
    ensures { result ≡ decoded_as (queue_item m k) }
{
    held::decoded(
        true,
        false,
        &m.ram,
        queue_slot(m, k),
        ring::size(frozen_at(m, 0)),
    )
}

// What lies behind the RAM's end is 0.
#[tactic(auto, unfolding(words::specs::Words::le_at))]
fn word_at(ram: &[u8], at: usize) -> u32
    requires { at ≤ 1000000 }
    ensures { result ≡ le_at ram.now at }
{
    let byte = |k: usize| ram.get(at + k).copied().unwrap_or(0);
    words::le_at(&[byte(0), byte(1), byte(2), byte(3)], 0)
}

// The queue's slots begin at the RAM's start.
fn rank(ram: &[u8], size: usize, k: u8) -> u32
    requires { size ≤ 76 }
    ensures { result ≡ rank_at ram.now (k * size) }
{
    let at = k as usize * size;
    ring::queue::rank_of(word_at(ram, at), word_at(ram, at + 4))
}

// Slot a, but a later slot b of smaller rank.
fn better(ram: &[u8], size: usize, a: u8, later: Option<u8>) -> u8
    requires { (size ≤ 76) × (a < no_slot) × IfSome later (λ k. k < no_slot) }
    ensures { (result ≡ better (λ k. rank_at ram.now (k * size)) a (unwrap_or later no_slot)) × (result < no_slot) }
{
    if let Some(b) = later {
        if rank(ram, size, b) < rank(ram, size, a) {
            return b;
        }
    }
    a
}

// The slot held whose message wins arbitration.
fn winner(m: Model) -> Option<u8>
    ensures slot { unwrap_or result no_slot ≡ winner m }
    ensures there { IfSome result (λ k. k < no_slot) }
{
    let frozen = frozen_at(m, 0);
    let size = ring::size(frozen);
    let mut best = None;
    for i in (0..ring::depth(frozen)).rev() {
        if m.queue.held[i as usize] {
            best = Some(better(&m.ram, size, i as u8, best));
        }
    }
    best
}

#[tactic(auto, unfolding(crate::specs::Queue::queue_sends, crate::specs::Queue::queue_output, crate::specs::Queue::queue_model))]
pub fn send_queue(m: Model) -> Sent
    ensures { result ≡ sent_as (queue_output m) (queue_model m) }
{
    let q = m.queue;
    if !m.fixed.queue || !TxQueueControl(q.control).txreq() {
        return departure::not_sent(Unsent::Nothing, m);
    }
    match winner(m) {
        Some(k) => {
            let item = queue_item(m, k);
            let next = state::with_queue(m, ring::queue::sent(frozen_at(m, 0), k, q));
            departure::taken(item, next)
        }
        None => departure::not_sent(Unsent::Nothing, m),
    }
}
