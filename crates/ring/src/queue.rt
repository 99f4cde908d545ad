// The transmit queue: its slots are held in any order, and one is shown. `frozen` is its control word as last written in Configuration.
ghost use Rattle.std.specs.Prelude.{◌≡◌, false, not, ◌≤◌, ◌<◌, get_or, set, if◌then◌else◌};
ghost use Rattle.ring.specs.Queue.{first_not, free, full, empty, status, fresh, controlled, marked, claimed, freed, sent, configured, commanded, turned, rank_of};
ghost use Rattle.ring.specs.Slots.{queue_word, queue_increased, queue_configures, queue_commands, queue_enters, queue_leaves};

use crate::depth;
use crate::slots::{Slots, without_txreq};
use fifo::FifoStatus;

#[derive(Clone, Copy)]
pub struct Queue {
    // The control word as last written; UINC is 0 in it, and so is FRESET outside Configuration.
    pub control: u32,
    // Which slots are held.
    pub held: [bool; 32],
    // The slot that is shown.
    pub shown: u8,
}

// ---- what is held

// How many slots come before the first that is not so.
fn run(held: &[bool; 32], on: bool, depth: u32) -> u32
    requires { depth ≤ 32 }
    ensures { (result ≡ first_not (λ k. if on then get_or held.now k false else not (get_or held.now k false)) 0 depth) × (result ≤ depth) }
{
    for k in 0..depth {
        if held[k as usize] != on {
            return k;
        }
    }
    depth
}

#[tactic(auto, unfolding(crate::specs::Queue::free))]
pub fn free(frozen: u32, q: Queue) -> u8
    ensures { (result ≡ free frozen q) × (result ≤ 32) }
{
    run(&q.held, true, depth(frozen)) as u8
}

#[tactic(auto, unfolding(crate::specs::Queue::full))]
pub fn full(frozen: u32, q: Queue) -> bool
    ensures { result ≡ full frozen q }
{
    depth(frozen) <= free(frozen, q) as u32
}

#[tactic(auto, unfolding(crate::specs::Queue::empty))]
pub fn empty(frozen: u32, q: Queue) -> bool
    ensures { result ≡ empty frozen q }
{
    let d = depth(frozen);
    d <= run(&q.held, false, d)
}

#[tactic(auto, unfolding(crate::specs::Queue::status))]
pub fn status(frozen: u32, q: Queue) -> u32
    ensures { result ≡ status frozen q }
{
    let a = FifoStatus(0).with_tfnrfnif(!full(frozen, q));
    a.with_tferffif(empty(frozen, q)).0
}

// ---- changes

// The flags with slot k's; there is none behind slot 31.
fn flagged(held: [bool; 32], k: u8, on: bool) -> [bool; 32]
    ensures { result ≡ set held k on }
{
    let mut flags = held;
    if k < 32 {
        flags[k as usize] = on;
    }
    flags
}

#[tactic(auto, unfolding(crate::specs::Queue::marked))]
fn marked(q: Queue) -> Queue
    ensures { result ≡ marked q }
{
    Queue {
        held: flagged(q.held, q.shown, true),
        ..q
    }
}

#[tactic(auto, unfolding(crate::specs::Queue::claimed, crate::specs::Queue::showing))]
pub fn claimed(frozen: u32, q: Queue) -> Queue
    ensures { result ≡ claimed frozen q }
{
    if full(frozen, q) {
        return q;
    }
    let m = marked(q);
    if full(frozen, m) {
        return m;
    }
    Queue {
        shown: free(frozen, m),
        ..m
    }
}

#[tactic(auto, unfolding(crate::specs::Queue::freed))]
pub fn freed(frozen: u32, k: u8, q: Queue) -> Queue
    ensures { result ≡ freed frozen k q }
{
    Queue {
        held: flagged(q.held, k, false),
        shown: if full(frozen, q) { k } else { q.shown },
        ..q
    }
}

#[tactic(auto, unfolding(crate::specs::Queue::sent))]
pub fn sent(frozen: u32, k: u8, q: Queue) -> Queue
    ensures { result ≡ sent frozen k q }
{
    let f = freed(frozen, k, q);
    if empty(frozen, f) {
        return f.controlled(without_txreq(q.control));
    }
    f
}

impl Slots for Queue {
    ghost word_of = { queue_word };

    ghost fresh_of = { fresh };

    ghost controlled_by = { controlled };

    ghost increased_by = { queue_increased };

    ghost configured_by = { configured };

    ghost commanded_by = { commanded };

    ghost turned_by = { turned };

    ghost configures = { queue_configures };

    ghost commands = { queue_commands };

    ghost enters = { queue_enters };

    ghost leaves = { queue_leaves };

    fn word(self) -> u32 {
        self.control
    }

    #[tactic(auto, unfolding(crate::specs::Queue::fresh))]
    fn fresh(word: u32) -> Queue {
        Queue {
            control: word,
            held: [false; 32],
            shown: 0,
        }
    }

    #[tactic(auto, unfolding(crate::specs::Queue::controlled))]
    fn controlled(self, word: u32) -> Queue {
        Queue {
            control: word,
            ..self
        }
    }

    fn increased(self, on: bool, frozen: u32) -> Queue {
        if on { claimed(frozen, self) } else { self }
    }
}

// ---- arbitration

// Two header words as one number, the smallest of which wins.
#[tactic(auto, unfolding(crate::specs::Queue::rank_of))]
pub fn rank_of(w0: u32, w1: u32) -> u32
    ensures { result ≡ rank_of w0 w1 }
{
    let base = field::get(w0, 0, 11) * 0x8_0000;
    if field::bit(w1, 4) {
        return base + 0x4_0000 + field::get(w0, 11, 18);
    }
    base
}
