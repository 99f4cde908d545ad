// The messages that a FIFO holds, decoded from RAM.
ghost use Rattle.std.specs.Prelude.{◌≡◌, ◌≤◌, length, get_or};
ghost use Rattle.parts.specs.Parts.{part};
ghost use Rattle.message.specs.Message.{decoding, short};
ghost use Rattle.message.specs.Structs.{decoded_as};
ghost use Rattle.bus.specs.Held.{slot_of, item_at, held};

use message::{Frame, Undecoded};
use state::{Model, fifo_at, frozen_at};

// So many bytes of RAM, read as an object; what lies behind the RAM's end is not there.
pub fn decoded(
    sending: bool,
    stamped: bool,
    ram: &[u8; 2048],
    at: usize,
    size: usize,
) -> Result<Frame, Undecoded>
    requires { (at ≤ 1000000) × (size ≤ 76) }
    ensures { result ≡ decoded_as (decoding sending stamped (part ram.now at size)) }
{
    let start = at.min(2048);
    let end = (at + size).min(2048);
    message::decode(sending, stamped, &ram[start..end])
}

// Where the slot k places behind the oldest begins.
#[tactic(auto, unfolding(crate::specs::Held::slot_of))]
pub fn slot_of(m: Model, n: u8, k: u8) -> usize
    ensures { (result ≡ slot_of m n k) × (result ≤ 1000000) }
{
    let f = fifo_at(m, n);
    let p = ring::place(ring::depth(frozen_at(m, n)), f.head, k);
    m.fixed.slot_at(n, p)
}

#[tactic(auto, unfolding(crate::specs::Held::item_at))]
pub fn item_at(m: Model, n: u8, k: u8) -> Result<Frame, Undecoded>
    ensures { result ≡ decoded_as (item_at m n k) }
{
    let w = frozen_at(m, n);
    decoded(
        ring::sending(w),
        ring::stamped(w),
        &m.ram,
        slot_of(m, n, k),
        ring::size(w),
    )
}

#[tactic(auto, using(crate::proofs::Laws::fifo_fits_lem, crate::proofs::Laws::row_length_lem), unfolding(crate::specs::Held::held))]
pub fn held_len(m: Model, n: u32) -> u8
    ensures { result ≡ length (held m n) }
{
    if !fifo::is_fifo(n) {
        return 0;
    }
    let n = n as u8;
    let own = fifo_at(m, n);
    own.count
}

// The message k places behind the oldest; `Short` where none is held there.
#[tactic(auto, using(crate::proofs::Laws::fifo_fits_lem, crate::proofs::Laws::held_fifo, crate::proofs::Laws::held_at))]
pub fn held_at(m: Model, n: u32, k: u8) -> Result<Frame, Undecoded>
    ensures { result ≡ decoded_as (get_or (held m n) k short) }
{
    if k < held_len(m, n) {
        return item_at(m, n as u8, k);
    }
    Err(Undecoded::Short)
}
