// A change of one register: the word read, with the bits that are kept and those that are set.
ghost use Rattle.std.specs.Prelude.{◌≡◌, ◌-◌, ◌^◌};
ghost use Rattle.plan.specs.Change.{modified};

use field::{Numbered, Single};

#[derive(Clone, Copy)]
pub struct Change {
    pub address: u16,
    pub keep: u32,
    pub set: u32,
}

// A register's fields to their bits in `set`, where `kept` has these fields 0 and every other bit 1.
pub fn change_of<R: Single>(kept: R, set: R) -> Change
    ensures { result ≡ record { address = R.kind.address 0; keep = R.word kept; set = R.word set } }
{
    Change {
        address: R::address(),
        keep: kept.word(),
        set: set.word(),
    }
}

// Those of the kind's register of number n.
pub fn change_at<R: Numbered>(n: u8, kept: R, set: R) -> Change
    ensures { result ≡ record { address = R.kind.address n; keep = R.word kept; set = R.word set } }
{
    Change {
        address: R::address(n),
        keep: kept.word(),
        set: set.word(),
    }
}

// The bits of `clear` to 0, then those of `set` to 1.
pub fn keeping(address: u16, clear: u32, set: u32) -> Change
    ensures { result ≡ record { address = address; keep = 2 ^ 32 - 1 - clear; set = set } }
{
    Change {
        address,
        keep: !clear,
        set,
    }
}

#[tactic(auto, unfolding(crate::specs::Change::modified))]
pub fn modified_word(c: Change, w: u32) -> u32
    ensures { result ≡ modified c w }
{
    w & c.keep | c.set
}
