// Tests on the numbers of a transcript.
ghost use Rattle.std.specs.Prelude.{◌≡◌, ◌<◌};
ghost use Rattle.classes.specs.Classes.{is_high, is_long, is_last, is_cut, is_beyond};

use fifo::{ControlWord, FifoControl};

#[tactic(auto, unfolding(crate::specs::Classes::is_high))]
pub fn is_high(user: u32) -> bool
    ensures { result ≡ is_high user }
{
    0xFBFF < user
}

#[tactic(auto, unfolding(crate::specs::Classes::is_long))]
pub fn is_long(n: usize, w: u32) -> bool
    ensures { result ≡ is_long n w }
{
    FifoControl(w).payload_size() < n
}

#[tactic(auto, unfolding(crate::specs::Classes::is_last))]
pub fn is_last(address: u32, n: u64) -> bool
    ensures { result ≡ is_last address n }
{
    let a = address as u64;
    0x400 <= a && n <= 0xC00 && a + n == 0xC00
}

#[tactic(auto, unfolding(crate::specs::Classes::is_cut))]
pub fn is_cut(tdco: u64, w: u32) -> bool
    ensures { result ≡ is_cut tdco w }
{
    field::bit(w, 14) != (tdco / 64 % 2 == 1)
}

#[tactic(auto, unfolding(crate::specs::Classes::is_beyond))]
pub fn is_beyond(address: u32, n: u64) -> bool
    ensures { result ≡ is_beyond address n }
{
    let a = address as u64;
    0x400 <= a && 0xFFFF_FFFF - a < n
}
