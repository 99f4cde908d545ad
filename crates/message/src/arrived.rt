// A frame that arrived: tested, and written as an object.
ghost use Rattle.std.specs.Prelude.{◌≡◌, ◌≤◌, length};
ghost use Rattle.field.specs.Field.{Fits};
ghost use Rattle.header.specs.Header.{DLC, FILHIT, top_id};
ghost use Rattle.message.specs.Message.{arrival_check, arriving};
ghost use Rattle.message.specs.Structs.{object_in};

use crate::object;
use header::{Header, first_word, received_len, received_word, top_id};
use spi::Refusal;

// What a frame with a payload of n bytes is refused for.
#[tactic(auto, unfolding(crate::specs::Message::arrival_check))]
pub fn check_arrival(h: Header, dlc: u32, n: usize) -> Result<(), Refusal>
    ensures { result ≡ arrival_check h dlc n }
{
    if top_id(h.extended) < h.id {
        return Err(Refusal::BadIdentifier);
    }
    if 15 < dlc {
        return Err(Refusal::BadPayload);
    }
    if received_len(dlc as usize, h.fdf) == n {
        Ok(())
    } else {
        Err(Refusal::BadPayload)
    }
}

// The object of a frame that a filter took, into lent bytes; its length. What a frame must be like `check_arrival` says before.
#[tactic(auto, unfolding(crate::specs::Message::arriving))]
pub fn arrive(
    header: Header,
    dlc: u32,
    hit: u32,
    stamp: Option<u32>,
    payload: &[u8],
    body: &mut [u8; 76],
) -> usize
    requires { (header.id ≤ top_id header.extended) × Fits DLC dlc × Fits FILHIT hit × (length payload.now ≤ 64) }
    ensures { record { bytes = body.new; len = result } ≡ object_in (arriving header dlc hit stamp payload.now) }
{
    let a = first_word(header);
    let b = received_word(header, dlc, hit);
    object::put_object(a, b, stamp, payload, body)
}
