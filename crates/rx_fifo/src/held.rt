// The payload between the exchange that reads it and the end of the call: at the front of the body.
ghost use Rattle.std.specs.Prelude.{◌≡◌, ◌≤◌, min, length, take};
ghost use Rattle.fetch.specs.Numbers.{fetch_at};
ghost use Rattle.rx_fifo.specs.Step.{held_at};
ghost use Rattle.rx_fifo.specs.Outcome.{size_at, filled_by};
ghost use Rattle.rx_fifo.specs.Numbers.{fetch_of};

use fetch::{FetchNumbers, FetchStage};

// No payload is longer than 64 bytes.
pub fn at_most_64(n: usize) -> usize
    ensures { (result ≡ min n 64) × (result ≤ 64) }
{
    n.min(64)
}

pub fn hold(c: FetchNumbers, rx: &[u8], body: &mut [u8; 76])
    ensures { take 64 body.new ≡ held_at (fetch_at c) (take 64 body.old) rx.now }
{
    if matches!(c.stage, FetchStage::Body) {
        parts::put_at(body, 0, &rx[..at_most_64(rx.len())]);
    }
}

// How many bytes of payload a call is done with.
fn size_of(c: FetchNumbers) -> usize
    ensures { result ≡ size_at (fetch_at c) }
{
    if matches!(c.stage, FetchStage::Done) {
        c.len as usize
    } else {
        0
    }
}

// Nothing goes to a buffer that is too small.
#[tactic(auto, unfolding(crate::specs::Numbers::fetch_of, crate::specs::Outcome::filled, crate::specs::Outcome::filled_by))]
pub fn fill(c: FetchNumbers, body: &[u8], buf: &mut [u8])
    requires { 64 ≤ length body.now }
    ensures { buf.new ≡ filled_by (fetch_of c body.now) buf.old }
{
    if 64 <= buf.len() {
        parts::put_at(buf, 0, &body[..at_most_64(size_of(c))]);
    }
}
