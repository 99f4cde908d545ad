// A FIFO's registers as they read.
ghost use Rattle.std.specs.Prelude.{◌≡◌, false, if◌then◌else◌};
ghost use Rattle.ring.specs.Ring.{sending};
ghost use Rattle.ring.specs.Registers.{frozen_fields, copied, ready, edge, status};

use crate::{Fifo, Slots, depth, sending};
use fifo::{ControlWord, FifoControl, FifoStatus};

// A control word as it reads.
#[tactic(auto, using(crate::proofs::Words::digit_bit))]
pub fn control<S: Slots>(frozen: u32, s: S) -> u32
    ensures { result ≡ copied frozen_fields frozen (S.word_of s) }
{
    let w = FifoControl(frozen);
    let a = FifoControl(s.word()).with_rxtsen(w.rxtsen());
    a.with_txen(w.txen())
        .with_fsize(w.fsize())
        .with_plsize(w.plsize())
        .0
}

#[tactic(auto, unfolding(crate::specs::Registers::ready))]
fn ready(frozen: u32, f: Fifo) -> bool
    ensures { result ≡ ready frozen f }
{
    if sending(frozen) {
        return (f.count as u32) < depth(frozen);
    }
    0 < f.count
}

#[tactic(auto, unfolding(crate::specs::Registers::edge))]
fn edge(frozen: u32, f: Fifo) -> bool
    ensures { result ≡ edge frozen f }
{
    if sending(frozen) {
        return f.count == 0;
    }
    depth(frozen) <= f.count as u32
}

fn over(frozen: u32, f: Fifo) -> bool
    ensures { result ≡ (if sending frozen then false else f.over) }
{
    !sending(frozen) && f.over
}

#[tactic(auto, unfolding(crate::specs::Registers::status))]
pub fn status(frozen: u32, f: Fifo) -> u32
    ensures { result ≡ status frozen f }
{
    let a = FifoStatus(0).with_tfnrfnif(ready(frozen, f));
    let b = a.with_tferffif(edge(frozen, f));
    b.with_rxovif(over(frozen, f)).0
}
