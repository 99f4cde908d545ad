// Nominal bit time, CiNBTCFG.
ghost use Rattle.std.specs.Prelude.{refl};
ghost use Rattle.std.proofs.Common.{rules};
ghost use Rattle.bit_timing.specs.Nominal.{CiNBTCFG};

use crate::BitTime;
use field::{Register, Single};

#[derive(Clone, Copy)]
pub struct NominalBitTimeConfiguration(pub u32);

impl Register for NominalBitTimeConfiguration {
    ghost kind = { CiNBTCFG };

    ghost word = { λ r. r.0 };

    ghost ADDRESS = { CiNBTCFG.address 0 };

    ghost RESET = { CiNBTCFG.reset };

    ghost reset_is = { refl };

    const ADDRESS: u16 = 0x004;

    const RESET: u32 = 0x003E_0F0F;

    fn word(self) -> u32 {
        self.0
    }

    fn of_word(w: u32) -> NominalBitTimeConfiguration {
        NominalBitTimeConfiguration(w)
    }
}

impl Single for NominalBitTimeConfiguration {
    ghost address_is = { refl };
}

impl BitTime for NominalBitTimeConfiguration {
    ghost BITS = { 7 };

    ghost is_bit_time = { Prim.search rules };

    const BITS: u32 = 7;
}
