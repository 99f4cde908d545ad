// The register field codec: a field is `width` bits of a word from bit `pos` on, read and set with shifts and masks.
#![tactic(auto)]

ghost use Rattle.std.specs.Prelude.{◌≡◌, ◌+◌, ◌-◌, ◌^◌, ◌≤◌, ◌<◌, eqb};
ghost use Rattle.field.specs.Field.{field_of, with_field, digit};

mod register;

pub use register::{Numbered, Register, Single};

// The `width` low bits.
fn ones(width: u32) -> u32
    requires { width ≤ 32 }
    ensures { result ≡ 2 ^ width - 1 }
{
    ((1u64 << width) - 1) as u32
}

pub fn get(word: u32, pos: u32, width: u32) -> u32
    requires { (pos < 32) × (width ≤ 32) }
    ensures { result ≡ field_of word pos width }
{
    (word >> pos) & ones(width)
}

pub fn set(word: u32, pos: u32, width: u32, value: u32) -> u32
    requires { (pos < 32) × (pos + width ≤ 32) × (value < 2 ^ width) }
    ensures { result ≡ with_field word pos width value }
{
    (word & !(ones(width) << pos)) | (value << pos)
}

// A field of one bit.
pub fn bit(word: u32, pos: u32) -> bool
    requires { pos < 32 }
    ensures { result ≡ eqb (field_of word pos 1) 1 }
{
    get(word, pos, 1) == 1
}

pub fn set_bit(word: u32, pos: u32, on: bool) -> u32
    requires { pos < 32 }
    ensures { result ≡ with_field word pos 1 (digit on) }
{
    set(word, pos, 1, on as u32)
}
