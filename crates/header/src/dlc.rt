// Data length codes and the payload lengths that they mean.
ghost use Rattle.std.specs.Prelude.{◌≡◌, ◌≤◌};
ghost use Rattle.header.specs.Dlc.{dlcs, length_of, received_length, dlc_of};

// What DLC 0 to 15 mean, in bytes.
pub const LENGTHS: [usize; 16] = [0, 1, 2, 3, 4, 5, 6, 7, 8, 12, 16, 20, 24, 32, 48, 64];

// How many DLCs a frame may have, FD or classic.
fn count(fdf: bool) -> usize
    ensures { (result ≡ dlcs fdf) × (result ≤ 16) }
{
    if fdf { 16 } else { 9 }
}

// In a frame to send.
#[tactic(auto, unfolding(crate::specs::Dlc::length_of))]
pub fn len_for_dlc(dlc: usize, fdf: bool) -> Option<usize>
    ensures { result ≡ length_of fdf dlc }
{
    LENGTHS[..count(fdf)].get(dlc).copied()
}

// In a frame received: a classic frame with a DLC above 8 has 8 bytes. There is no DLC above 15, and such a number means no byte.
#[tactic(auto, using(crate::proofs::Dlcs::received_le), unfolding(crate::specs::Dlc::received_length))]
pub fn received_len(dlc: usize, fdf: bool) -> usize
    ensures { (result ≡ received_length fdf dlc) × (result ≤ 64) }
{
    let n = LENGTHS.get(dlc).copied().unwrap_or(0);
    if fdf { n } else { n.min(8) }
}

pub fn dlc_for_len(len: usize, fdf: bool) -> Option<usize>
    ensures { result ≡ dlc_of fdf len }
{
    LENGTHS[..count(fdf)].iter().position(|&n| n == len)
}
