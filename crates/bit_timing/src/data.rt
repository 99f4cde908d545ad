// Data bit time, CiDBTCFG.
ghost use Rattle.std.specs.Prelude.{refl};
ghost use Rattle.std.proofs.Common.{rules};
ghost use Rattle.bit_timing.specs.Data.{CiDBTCFG};

use crate::BitTime;
use field::{Register, Single};

#[derive(Clone, Copy)]
pub struct DataBitTimeConfiguration(pub u32);

impl Register for DataBitTimeConfiguration {
    ghost kind = { CiDBTCFG };

    ghost word = { λ r. r.0 };

    ghost ADDRESS = { CiDBTCFG.address 0 };

    ghost RESET = { CiDBTCFG.reset };

    ghost reset_is = { refl };

    const ADDRESS: u16 = 0x008;

    const RESET: u32 = 0x000E_0303;

    fn word(self) -> u32 {
        self.0
    }

    fn of_word(w: u32) -> DataBitTimeConfiguration {
        DataBitTimeConfiguration(w)
    }
}

impl Single for DataBitTimeConfiguration {
    ghost address_is = { refl };
}

impl BitTime for DataBitTimeConfiguration {
    ghost BITS = { 4 };

    ghost is_bit_time = { Prim.search rules };

    const BITS: u32 = 4;
}
