// CRC-16/CMS, four bits at a time.
#![tactic(auto)]

ghost use Rattle.std.specs.Prelude.{◌≡◌, ◌<◌, ◌*◌};
ghost use Rattle.std.specs.Int.Bits.{bit_xor};
ghost use Rattle.crc.specs.Crc.{shifts, crc_byte, crc_from, crc_of};

// What the register holds before the first byte.
pub const START: u16 = 0xFFFF;

// Word n: the register four bits on, where it held n in its top four bits and 0 below.
const NIBBLES: [u16; 16] = [
    0x0000, 0x8005, 0x800F, 0x000A, 0x801B, 0x001E, 0x0014, 0x8011, 0x8033, 0x0036, 0x003C, 0x8039,
    0x0028, 0x802D, 0x8027, 0x0022,
];

// The register, four bits on: n enters at the top.
fn nibble(c: u16, n: u16) -> u16
    requires { n < 16 }
    ensures { result ≡ shifts 4 (bit_xor c (n * 0x1000)) }
{
    (c << 4) ^ NIBBLES[((c >> 12) ^ n) as usize]
}

// The register, one byte on: the byte's high four bits first, then its low ones.
fn byte(c: u16, b: u8) -> u16
    ensures { result ≡ crc_byte c b }
{
    let high = (b >> 4) as u16;
    let low = (b & 0x0F) as u16;
    nibble(nibble(c, high), low)
}

// The register after the bytes of `s`, which it met with `c` in it: the bytes of one CRC may be given in parts.
#[tactic(auto, unfolding(crate::specs::Crc::crc_from))]
pub fn update(c: u16, s: &[u8]) -> u16
    ensures { result ≡ crc_from c s.now }
{
    s.iter().fold(c, |x, b| byte(x, *b))
}

// The CRC of the bytes of `s`.
#[tactic(auto, unfolding(crate::specs::Crc::crc_of))]
pub fn checksum(s: &[u8]) -> u16
    ensures { result ≡ crc_of s.now }
{
    update(START, s)
}
