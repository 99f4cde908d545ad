// The bytes of an object: two words, a timestamp and 64 bytes of payload are 76. What lies behind the object's own is 0.
ghost use Rattle.std.specs.Prelude.{◌≡◌, [], ◌+◌, ◌≤◌, length};
ghost use Rattle.parts.specs.Parts.{put, zeroed};
ghost use Rattle.message.specs.Object.{stamp_bytes, object_bytes};
ghost use Rattle.message.specs.Structs.{object_in};

// No object.
#[tactic(auto, unfolding(parts::specs::Parts::zeroed))]
pub fn clear(body: &mut [u8; 76])
    ensures { body.new ≡ zeroed 76 [] }
{
    let zeros = [0u8; 76];
    *body = zeros;
}

// A timestamp, where there is one, behind two words; where the payload goes.
#[tactic(auto, using(words::proofs::Laws::le_length, crate::proofs::Objects::put_nothing))]
fn put_stamp(stamp: Option<u32>, body: &mut [u8; 76]) -> usize
    ensures { (result ≡ 8 + length (stamp_bytes stamp)) × (result ≤ 12) × (body.new ≡ put body.old 8 (stamp_bytes stamp)) }
{
    match stamp {
        Some(t) => {
            let b = words::le_bytes(t);
            parts::put_at(body, 8, &b);
            12
        }
        None => 8,
    }
}

// The object's bytes, and its length. The zeros behind the payload are there already.
#[tactic(auto, using(crate::proofs::Round::object_length, crate::proofs::Objects::laid))]
pub fn put_object(a: u32, b: u32, stamp: Option<u32>, p: &[u8], body: &mut [u8; 76]) -> usize
    requires { length p.now ≤ 64 }
    ensures { record { bytes = body.new; len = result } ≡ object_in (object_bytes a b stamp p.now) }
{
    clear(body);
    let first = words::le_bytes(a);
    let second = words::le_bytes(b);
    parts::put_at(body, 0, &first);
    parts::put_at(body, 4, &second);
    let at = put_stamp(stamp, body);
    parts::put_at(body, at, p);
    at + words::round_up(p.len())
}
