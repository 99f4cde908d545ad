// Numbers from -64 to 63 in seven bits, two's complement: how TDCO is stored.
ghost use Rattle.std.specs.Prelude.{◌≡◌, ◌<◌};
ghost use Rattle.bit_timing.specs.Signed.{seven_of, number_of, Small, is_small};

// Whether seven bits hold a number.
pub fn is_small(t: i32) -> bool
    ensures { result ≡ is_small t }
{
    matches!(t, -64..=63)
}

// A number as seven bits.
pub fn seven(t: i32) -> u32
    requires { Small t }
    ensures { (result ≡ seven_of t) × (result < 128) }
{
    (t & 0x7F) as u32
}

// Seven bits as a number.
pub fn number(x: u32) -> i32
    requires { x < 128 }
    ensures { result ≡ number_of x }
{
    if x < 64 { x as i32 } else { x as i32 - 128 }
}
