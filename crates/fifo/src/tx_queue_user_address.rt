// Transmit queue user address, CiTXQUA.
ghost use Rattle.std.specs.Prelude.{◌≡◌, refl};
ghost use Rattle.field.specs.Field.{read, write};
ghost use Rattle.fifo.specs.TxQueueUserAddress.{CiTXQUA};
ghost use Rattle.fifo.specs.UserAddress.{FIFOUA};

use crate::UserAddressWord;
use field::{Register, Single};

#[derive(Clone, Copy)]
pub struct TxQueueUserAddress(pub u32);

impl Register for TxQueueUserAddress {
    ghost kind = { CiTXQUA };

    ghost word = { λ r. r.0 };

    ghost ADDRESS = { CiTXQUA.address 0 };

    ghost RESET = { CiTXQUA.reset };

    ghost reset_is = { refl };

    const ADDRESS: u16 = 0x058;

    const RESET: u32 = 0x0000_0000;

    fn word(self) -> u32 {
        self.0
    }

    fn of_word(w: u32) -> TxQueueUserAddress {
        TxQueueUserAddress(w)
    }
}

impl Single for TxQueueUserAddress {
    ghost address_is = { refl };
}

impl UserAddressWord for TxQueueUserAddress {}
