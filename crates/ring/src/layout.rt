// Where the FIFOs' slots lie in RAM.
ghost use Rattle.std.specs.Prelude.{◌≡◌, ◌≤◌, ◌*◌, ◌+◌, get_or};
ghost use Rattle.ring.specs.Layout.{stamped, size, room, end, base, slot_at};

use crate::{depth, sending};
use fifo::{ControlWord, FifoControl};

#[tactic(auto, unfolding(crate::specs::Layout::stamped))]
pub fn stamped(frozen: u32) -> bool
    ensures { result ≡ stamped frozen }
{
    !sending(frozen) && FifoControl(frozen).rxtsen()
}

#[tactic(auto, unfolding(crate::specs::Layout::size), using(crate::proofs::Words::payload_most))]
pub fn size(frozen: u32) -> usize
    ensures { (result ≡ size frozen) × (result ≤ 76) }
{
    let payload = FifoControl(frozen).payload_size();
    if stamped(frozen) {
        return 12 + payload;
    }
    8 + payload
}

#[tactic(auto, unfolding(crate::specs::Layout::room))]
fn room(frozen: u32) -> usize
    ensures { (result ≡ room frozen) × (result ≤ 2432) }
{
    depth(frozen) as usize * size(frozen)
}

// What says where slots lie: whether the queue is on, and the control words as last written in Configuration, entry 0 the queue's.
#[derive(Clone, Copy)]
pub struct Layout<'a> {
    pub queue: bool,
    pub words: &'a [u32; 32],
}

impl Layout<'_> {
    // The control word of FIFO n, 0 where there is none.
    fn word(self, n: u8) -> u32
        ensures { result ≡ get_or self.entry.words.now n 0 }
    {
        let words = self.words;
        words.get(n as usize).copied().unwrap_or(0)
    }

    #[tactic(auto, unfolding(crate::specs::Layout::end))]
    fn first(self) -> usize
        ensures { (result ≡ end self.entry.queue self.entry.words.now 0) × (result ≤ 2432) }
    {
        if self.queue { room(self.word(0)) } else { 0 }
    }

    // Where FIFO n's slots end.
    #[tactic(auto, using(crate::proofs::Laws::end_plus))]
    pub fn end(self, n: u8) -> usize
        ensures { (result ≡ end self.entry.queue self.entry.words.now n) × (result ≤ 2432 * n + 2432) }
    {
        let mut sum = self.first();
        for i in 0..n {
            sum += room(self.word(i + 1));
        }
        sum
    }

    #[tactic(auto, unfolding(crate::specs::Layout::base))]
    fn base(self, n: u8) -> usize
        ensures { (result ≡ base self.entry.queue self.entry.words.now n) × (result ≤ 2432 * n + 2432) }
    {
        if n == 0 { 0 } else { self.end(n - 1) }
    }

    // Where slot k of FIFO n begins. The ring has no slot beyond 510: a head and a count are bytes.
    #[tactic(auto, unfolding(crate::specs::Layout::slot_at))]
    pub fn slot_at(self, n: u8, k: u32) -> usize
        requires { k ≤ 510 }
        ensures { (result ≡ slot_at self.entry.queue self.entry.words.now n k) × (result ≤ 1000000) }
    {
        self.base(n) + k as usize * size(self.word(n))
    }
}
