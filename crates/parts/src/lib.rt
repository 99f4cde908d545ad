// Parts of bytes: storing some in the middle of others.
#![tactic(auto)]

ghost use Rattle.std.specs.Prelude.{◌≡◌, ◌+◌, ◌≤◌, length};
ghost use Rattle.parts.specs.Parts.{put};

// The bytes of `src` from place `at` on; all others stay.
#[tactic(auto, unfolding(crate::specs::Parts::put))]
pub fn put_at(buf: &mut [u8], at: usize, src: &[u8])
    requires { at + length src.now ≤ length buf.old }
    ensures { buf.new ≡ put buf.old at src.now }
{
    buf[at..at + src.len()].copy_from_slice(src);
}
