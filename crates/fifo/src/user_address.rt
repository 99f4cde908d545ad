// FIFO user address, CiFIFOUAn.
ghost use Rattle.std.specs.Prelude.{◌≡◌, refl};
ghost use Rattle.field.specs.Field.{read, write};
ghost use Rattle.std.proofs.Common.{rules};
ghost use Rattle.fifo.specs.UserAddress.{CiFIFOUA, FIFOUA};

use field::{Numbered, Register};

// What the user addresses of a FIFO and of the transmit queue share.
pub trait UserAddressWord: Register {
    final fn fifoua(self) -> u32
        ensures { result ≡ read FIFOUA (Self.word self) }
    {
        field::get(self.word(), 0, 32)
    }

    final fn with_fifoua(self, v: u32) -> Self
        ensures { Self.word result ≡ write FIFOUA v (Self.word self) }
    {
        Self::of_word(field::set(self.word(), 0, 32, v))
    }
}

#[derive(Clone, Copy)]
pub struct UserAddress(pub u32);

impl UserAddress {
    // The address in FIFO 1.
    pub const FIRST: u16 = 0x064;
}

impl Register for UserAddress {
    ghost kind = { CiFIFOUA };

    ghost word = { λ r. r.0 };

    ghost ADDRESS = { CiFIFOUA.address 1 };

    ghost RESET = { CiFIFOUA.reset };

    ghost reset_is = { refl };

    const ADDRESS: u16 = UserAddress::FIRST;

    const RESET: u32 = 0x0000_0000;

    fn word(self) -> u32 {
        self.0
    }

    fn of_word(w: u32) -> UserAddress {
        UserAddress(w)
    }
}

impl Numbered for UserAddress {
    ghost LOWEST = { 1 };

    ghost STEP = { 12 };

    ghost steps = { Prim.search rules };

    const LOWEST: u16 = 1;

    const STEP: u16 = 12;
}

impl UserAddressWord for UserAddress {}
