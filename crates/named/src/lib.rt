// A field that a transcript names: why it has no value, and the values that fit it.
#![tactic(auto)]

ghost use Rattle.std.specs.Prelude.{◌≡◌, ◌<◌, ◌^◌, IfSome};
ghost use Rattle.named.specs.Flag.{flag_of};

// Why reading or setting a field gives no word.
#[derive(Clone, Copy, PartialEq, Eq, Debug)]
pub enum NoValue {
    // A field of the data sheet that documents 01 and 02 do not carry.
    Absent,
    // No such register or field, or a value or a word that is too large.
    Unknown,
}

// A value that so many bits hold.
pub fn fitting(v: u32, bits: u32) -> Option<u32>
    ensures { IfSome result (λ x. x < 2 ^ bits) }
{
    (32 <= bits || v < 1 << bits).then_some(v)
}

// A value that one bit holds.
#[tactic(auto, unfolding(crate::specs::Flag::flag_of))]
pub fn flag(v: u32) -> Option<bool>
    ensures { result ≡ flag_of v }
{
    match v {
        0 => Some(false),
        1 => Some(true),
        _ => None,
    }
}
