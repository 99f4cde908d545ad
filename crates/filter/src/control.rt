// Filter control, CiFLTCONk: four filters each, filter m in word m / 4 at byte m % 4.
ghost use Rattle.std.specs.Prelude.{◌≡◌, ◌%◌, refl};
ghost use Rattle.field.specs.Field.{read, write, Fits, flag, mark};
ghost use Rattle.std.proofs.Common.{rules};
ghost use Rattle.filter.specs.Control.{CiFLTCON, FBP, FLTEN};

use field::{Numbered, Register};

#[derive(Clone, Copy)]
pub struct FilterControl(pub u32);

impl Register for FilterControl {
    ghost kind = { CiFLTCON };

    ghost word = { λ r. r.0 };

    ghost ADDRESS = { CiFLTCON.address 0 };

    ghost RESET = { CiFLTCON.reset };

    ghost reset_is = { refl };

    const ADDRESS: u16 = FilterControl::FIRST;

    const RESET: u32 = 0x0000_0000;

    fn word(self) -> u32 {
        self.0
    }

    fn of_word(w: u32) -> FilterControl {
        FilterControl(w)
    }
}

impl Numbered for FilterControl {
    ghost LOWEST = { 0 };

    ghost STEP = { 4 };

    ghost steps = { Prim.search rules };

    const LOWEST: u16 = 0;

    const STEP: u16 = 4;
}

impl FilterControl {
    // The address of word 0.
    pub const FIRST: u16 = 0x1D0;

    // The FIFO that filter m gives its messages to.
    pub fn target(self, m: u8) -> u32
        ensures { result ≡ read (FBP (m % 4)) self.0 }
    {
        field::get(self.0, 8 * (m as u32 % 4), 5)
    }

    pub fn with_target(self, m: u8, fifo: u32) -> FilterControl
        requires { Fits (FBP (m % 4)) fifo }
        ensures { result.0 ≡ write (FBP (m % 4)) fifo self.0 }
    {
        FilterControl(field::set(self.0, 8 * (m as u32 % 4), 5, fifo))
    }

    pub fn enabled(self, m: u8) -> bool
        ensures { result ≡ flag (FLTEN (m % 4)) self.0 }
    {
        field::bit(self.0, 8 * (m as u32 % 4) + 7)
    }

    pub fn with_enabled(self, m: u8, on: bool) -> FilterControl
        ensures { result.0 ≡ mark (FLTEN (m % 4)) on self.0 }
    {
        FilterControl(field::set_bit(self.0, 8 * (m as u32 % 4) + 7, on))
    }
}
