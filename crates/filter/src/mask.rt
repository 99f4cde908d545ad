// Filter mask, CiMASKm.
ghost use Rattle.std.specs.Prelude.{◌≡◌, refl};
ghost use Rattle.field.specs.Field.{read, write, Fits, flag, mark};
ghost use Rattle.std.proofs.Common.{rules};
ghost use Rattle.filter.specs.Mask.{CiMASK, MSID, MEID, MSID11, MIDE};

use field::{Numbered, Register};

#[derive(Clone, Copy)]
pub struct FilterMask(pub u32);

impl Register for FilterMask {
    ghost kind = { CiMASK };

    ghost word = { λ r. r.0 };

    ghost ADDRESS = { CiMASK.address 0 };

    ghost RESET = { CiMASK.reset };

    ghost reset_is = { refl };

    const ADDRESS: u16 = FilterMask::FIRST;

    const RESET: u32 = 0x0000_0000;

    fn word(self) -> u32 {
        self.0
    }

    fn of_word(w: u32) -> FilterMask {
        FilterMask(w)
    }
}

impl Numbered for FilterMask {
    ghost LOWEST = { 0 };

    ghost STEP = { 8 };

    ghost steps = { Prim.search rules };

    const LOWEST: u16 = 0;

    const STEP: u16 = 8;
}

impl FilterMask {
    // The address in filter 0.
    pub const FIRST: u16 = 0x1F4;

    pub fn msid(self) -> u32
        ensures { result ≡ read MSID self.0 }
    {
        field::get(self.0, 0, 11)
    }

    pub fn with_msid(self, v: u32) -> FilterMask
        requires { Fits MSID v }
        ensures { result.0 ≡ write MSID v self.0 }
    {
        FilterMask(field::set(self.0, 0, 11, v))
    }

    pub fn meid(self) -> u32
        ensures { result ≡ read MEID self.0 }
    {
        field::get(self.0, 11, 18)
    }

    pub fn with_meid(self, v: u32) -> FilterMask
        requires { Fits MEID v }
        ensures { result.0 ≡ write MEID v self.0 }
    {
        FilterMask(field::set(self.0, 11, 18, v))
    }

    pub fn msid11(self) -> bool
        ensures { result ≡ flag MSID11 self.0 }
    {
        field::bit(self.0, 29)
    }

    pub fn with_msid11(self, on: bool) -> FilterMask
        ensures { result.0 ≡ mark MSID11 on self.0 }
    {
        FilterMask(field::set_bit(self.0, 29, on))
    }

    pub fn mide(self) -> bool
        ensures { result ≡ flag MIDE self.0 }
    {
        field::bit(self.0, 30)
    }

    pub fn with_mide(self, on: bool) -> FilterMask
        ensures { result.0 ≡ mark MIDE on self.0 }
    {
        FilterMask(field::set_bit(self.0, 30, on))
    }
}
