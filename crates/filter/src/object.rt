// Filter object, CiFLTOBJm.
ghost use Rattle.std.specs.Prelude.{◌≡◌, refl};
ghost use Rattle.field.specs.Field.{read, write, Fits, flag, mark};
ghost use Rattle.std.proofs.Common.{rules};
ghost use Rattle.filter.specs.Object.{CiFLTOBJ, SID, EID, SID11, EXIDE};

use field::{Numbered, Register};

#[derive(Clone, Copy)]
pub struct FilterObject(pub u32);

impl Register for FilterObject {
    ghost kind = { CiFLTOBJ };

    ghost word = { λ r. r.0 };

    ghost ADDRESS = { CiFLTOBJ.address 0 };

    ghost RESET = { CiFLTOBJ.reset };

    ghost reset_is = { refl };

    const ADDRESS: u16 = FilterObject::FIRST;

    const RESET: u32 = 0x0000_0000;

    fn word(self) -> u32 {
        self.0
    }

    fn of_word(w: u32) -> FilterObject {
        FilterObject(w)
    }
}

impl Numbered for FilterObject {
    ghost LOWEST = { 0 };

    ghost STEP = { 8 };

    ghost steps = { Prim.search rules };

    const LOWEST: u16 = 0;

    const STEP: u16 = 8;
}

impl FilterObject {
    // The address in filter 0.
    pub const FIRST: u16 = 0x1F0;

    pub fn sid(self) -> u32
        ensures { result ≡ read SID self.0 }
    {
        field::get(self.0, 0, 11)
    }

    pub fn with_sid(self, v: u32) -> FilterObject
        requires { Fits SID v }
        ensures { result.0 ≡ write SID v self.0 }
    {
        FilterObject(field::set(self.0, 0, 11, v))
    }

    pub fn eid(self) -> u32
        ensures { result ≡ read EID self.0 }
    {
        field::get(self.0, 11, 18)
    }

    pub fn with_eid(self, v: u32) -> FilterObject
        requires { Fits EID v }
        ensures { result.0 ≡ write EID v self.0 }
    {
        FilterObject(field::set(self.0, 11, 18, v))
    }

    pub fn sid11(self) -> bool
        ensures { result ≡ flag SID11 self.0 }
    {
        field::bit(self.0, 29)
    }

    pub fn with_sid11(self, on: bool) -> FilterObject
        ensures { result.0 ≡ mark SID11 on self.0 }
    {
        FilterObject(field::set_bit(self.0, 29, on))
    }

    pub fn exide(self) -> bool
        ensures { result ≡ flag EXIDE self.0 }
    {
        field::bit(self.0, 30)
    }

    pub fn with_exide(self, on: bool) -> FilterObject
        ensures { result.0 ≡ mark EXIDE on self.0 }
    {
        FilterObject(field::set_bit(self.0, 30, on))
    }
}
