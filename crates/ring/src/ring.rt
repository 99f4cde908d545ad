// One FIFO as a ring of slots. `frozen` is its control word as last written in Configuration.
ghost use Rattle.std.specs.Prelude.{◌≡◌, ◌+◌, ◌≤◌, ◌<◌};
ghost use Rattle.ring.specs.Ring.{sending, depth, place, shown, claimed, taken, increased, controlled, overflowed, sent, configured, commanded, turned, fresh};
ghost use Rattle.ring.specs.Slots.{fifo_word, fifo_configures, fifo_commands, fifo_enters, fifo_leaves};

use crate::slots::{Slots, without_txreq};
use fifo::{ControlWord, FifoControl};

#[derive(Clone, Copy)]
pub struct Fifo {
    // The control word as last written; UINC is 0 in it, and so is FRESET outside Configuration.
    pub control: u32,
    // The oldest message's slot, and how many are held from there on.
    pub head: u8,
    pub count: u8,
    // Receive overflow.
    pub over: bool,
}

#[tactic(auto, unfolding(crate::specs::Ring::sending))]
pub fn sending(frozen: u32) -> bool
    ensures { result ≡ sending frozen }
{
    FifoControl(frozen).txen()
}

#[tactic(auto, unfolding(crate::specs::Ring::depth))]
pub fn depth(frozen: u32) -> u32
    ensures { (result ≡ depth frozen) × (1 ≤ result) × (result ≤ 32) }
{
    FifoControl(frozen).fifo_size()
}

#[tactic(auto, unfolding(crate::specs::Ring::place))]
pub fn place(depth: u32, head: u8, k: u8) -> u32
    ensures { (result ≡ place depth head k) × (result ≤ head + k) }
{
    let p = head as u32 + k as u32;
    if p < depth { p } else { p - depth }
}

#[tactic(auto, unfolding(crate::specs::Ring::shown))]
pub fn shown(frozen: u32, f: Fifo) -> u32
    ensures { (result ≡ shown frozen f) × (result ≤ 510) }
{
    let d = depth(frozen);
    if sending(frozen) {
        return place(d, f.head, f.count);
    }
    place(d, f.head, 0)
}

#[tactic(auto, unfolding(crate::specs::Ring::claimed))]
pub fn claimed(f: Fifo) -> Fifo
    requires { f.count < 255 }
    ensures { result ≡ claimed f }
{
    Fifo {
        count: f.count + 1,
        ..f
    }
}

// The ring's next place is below 256: there is one slot at least.
#[tactic(auto, using(crate::proofs::Laws::place_below))]
fn next(depth: u32, head: u8) -> u8
    requires { (1 ≤ depth) × (depth ≤ 32) }
    ensures { result ≡ place depth head 1 }
{
    place(depth, head, 1) as u8
}

#[tactic(auto, unfolding(crate::specs::Ring::taken))]
fn taken(frozen: u32, f: Fifo) -> Fifo
    requires { 0 < f.count }
    ensures { result ≡ taken frozen f }
{
    Fifo {
        head: next(depth(frozen), f.head),
        count: f.count - 1,
        ..f
    }
}

#[tactic(auto, unfolding(crate::specs::Ring::increased))]
fn increased(frozen: u32, f: Fifo) -> Fifo
    ensures { result ≡ increased frozen f }
{
    if sending(frozen) {
        if (f.count as u32) < depth(frozen) {
            return claimed(f);
        }
        return f;
    }
    if 0 < f.count {
        return taken(frozen, f);
    }
    f
}

#[tactic(auto, unfolding(crate::specs::Ring::overflowed))]
pub fn overflowed(over: bool, f: Fifo) -> Fifo
    ensures { result ≡ overflowed over f }
{
    Fifo { over, ..f }
}

#[tactic(auto, unfolding(crate::specs::Ring::sent))]
pub fn sent(frozen: u32, f: Fifo) -> Fifo
    requires { 0 < f.count }
    ensures { result ≡ sent frozen f }
{
    let g = taken(frozen, f);
    if f.count == 1 {
        return g.controlled(without_txreq(f.control));
    }
    g
}

impl Slots for Fifo {
    ghost word_of = { fifo_word };

    ghost fresh_of = { fresh };

    ghost controlled_by = { controlled };

    ghost increased_by = { λ on. increased };

    ghost configured_by = { configured };

    ghost commanded_by = { λ on. commanded };

    ghost turned_by = { turned };

    ghost configures = { fifo_configures };

    ghost commands = { fifo_commands };

    ghost enters = { fifo_enters };

    ghost leaves = { fifo_leaves };

    fn word(self) -> u32 {
        self.control
    }

    #[tactic(auto, unfolding(crate::specs::Ring::fresh))]
    fn fresh(word: u32) -> Fifo {
        Fifo {
            control: word,
            head: 0,
            count: 0,
            over: false,
        }
    }

    #[tactic(auto, unfolding(crate::specs::Ring::controlled))]
    fn controlled(self, word: u32) -> Fifo {
        Fifo {
            control: word,
            ..self
        }
    }

    // A FIFO is always on.
    fn increased(self, _on: bool, frozen: u32) -> Fifo {
        increased(frozen, self)
    }
}
