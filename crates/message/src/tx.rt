// A message to send: tested, and written as an object.
ghost use Rattle.std.specs.Prelude.{◌≡◌};
ghost use Rattle.message.specs.Message.{to_write, check_of, encoding};
ghost use Rattle.message.specs.Structs.{encoded_as, encoded_in};

use crate::object;
use header::{Header, dlc_for_len, first_word, second_word, top_id};
use spi::Refusal;

// The DLC of a message with a payload of n bytes, or its refusal.
#[tactic(auto, unfolding(crate::specs::Message::check_of))]
fn check(h: Header, seq: u32, n: usize) -> Result<usize, Refusal>
    ensures { result ≡ check_of h seq n }
{
    if top_id(h.extended) < h.id {
        return Err(Refusal::BadIdentifier);
    }
    if 0x80_0000 <= seq {
        return Err(Refusal::BadSetting);
    }
    dlc_for_len(n, h.fdf).ok_or(Refusal::BadPayload)
}

// The object into lent bytes; its length, or why there is none.
#[tactic(auto, using(crate::proofs::Checks::sound, header::proofs::Dlcs::dlc_16, header::proofs::Dlcs::payload_le), unfolding(crate::specs::Message::encoding))]
pub fn encode(
    header: Header,
    seq: u32,
    stamp: Option<u32>,
    payload: &[u8],
    body: &mut [u8; 76],
) -> Result<usize, Refusal>
    ensures { encoded_in result body.new ≡ encoded_as (encoding (to_write header seq stamp payload.now)) }
{
    match check(header, seq, payload.len()) {
        Ok(d) => {
            let a = first_word(header);
            let b = second_word(header, seq, d as u32);
            Ok(object::put_object(a, b, stamp, payload, body))
        }
        Err(r) => {
            object::clear(body);
            Err(r)
        }
    }
}
