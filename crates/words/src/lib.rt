// Words as bytes on the wire: registers and RAM words are 4 bytes, little-endian; a command and a CRC are 2, big-endian.
#![tactic(auto)]

ghost use Rattle.std.specs.Prelude.{◌≡◌, ◌+◌, ◌^◌, ◌≤◌, ◌<◌, length};
ghost use Rattle.words.specs.Words.{le_bytes, be_bytes, le_at, be_at, round_up};

#[tactic(auto, unfolding(crate::specs::Words::le_bytes))]
pub fn le_bytes(w: u32) -> [u8; 4]
    ensures { result ≡ le_bytes w }
{
    w.to_le_bytes()
}

#[tactic(auto, unfolding(crate::specs::Words::be_bytes))]
pub fn be_bytes(w: u16) -> [u8; 2]
    ensures { result ≡ be_bytes w }
{
    w.to_be_bytes()
}

#[tactic(auto, unfolding(crate::specs::Words::le_at))]
pub fn le_at(s: &[u8], at: usize) -> u32
    requires { at + 4 ≤ length s.now }
    ensures { result ≡ le_at s.now at }
{
    u32::from_le_bytes([s[at], s[at + 1], s[at + 2], s[at + 3]])
}

#[tactic(auto, unfolding(crate::specs::Words::be_at))]
pub fn be_at(s: &[u8], at: usize) -> u16
    requires { at + 2 ≤ length s.now }
    ensures { result ≡ be_at s.now at }
{
    u16::from_be_bytes([s[at], s[at + 1]])
}

// A payload's length up to a multiple of 4.
pub fn round_up(n: usize) -> usize
    requires { n < 2 ^ 16 }
    ensures { result ≡ round_up n }
{
    n.next_multiple_of(4)
}
