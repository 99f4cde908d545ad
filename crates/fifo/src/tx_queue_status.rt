// Transmit queue status, CiTXQSTA.
ghost use Rattle.std.specs.Prelude.{◌≡◌, refl};
ghost use Rattle.field.specs.Field.{read, write, Fits, flag, mark};
ghost use Rattle.fifo.specs.Status.{TXATIF, TXERR, TXLARB, TXABT};
ghost use Rattle.fifo.specs.TxQueueStatus.{CiTXQSTA, TXQNIF, TXQEIF, TXQCI};

use crate::StatusWord;
use field::{Register, Single};

#[derive(Clone, Copy)]
pub struct TxQueueStatus(pub u32);

impl Register for TxQueueStatus {
    ghost kind = { CiTXQSTA };

    ghost word = { λ r. r.0 };

    ghost ADDRESS = { CiTXQSTA.address 0 };

    ghost RESET = { CiTXQSTA.reset };

    ghost reset_is = { refl };

    const ADDRESS: u16 = 0x054;

    const RESET: u32 = 0x0000_0000;

    fn word(self) -> u32 {
        self.0
    }

    fn of_word(w: u32) -> TxQueueStatus {
        TxQueueStatus(w)
    }
}

impl Single for TxQueueStatus {
    ghost address_is = { refl };
}

impl StatusWord for TxQueueStatus {}

impl TxQueueStatus {
    pub fn txqnif(self) -> bool
        ensures { result ≡ flag TXQNIF self.0 }
    {
        field::bit(self.0, 0)
    }

    pub fn with_txqnif(self, on: bool) -> TxQueueStatus
        ensures { result.0 ≡ mark TXQNIF on self.0 }
    {
        TxQueueStatus(field::set_bit(self.0, 0, on))
    }

    pub fn txqeif(self) -> bool
        ensures { result ≡ flag TXQEIF self.0 }
    {
        field::bit(self.0, 2)
    }

    pub fn with_txqeif(self, on: bool) -> TxQueueStatus
        ensures { result.0 ≡ mark TXQEIF on self.0 }
    {
        TxQueueStatus(field::set_bit(self.0, 2, on))
    }

    pub fn txqci(self) -> u32
        ensures { result ≡ read TXQCI self.0 }
    {
        field::get(self.0, 8, 5)
    }

    pub fn with_txqci(self, v: u32) -> TxQueueStatus
        requires { Fits TXQCI v }
        ensures { result.0 ≡ write TXQCI v self.0 }
    {
        TxQueueStatus(field::set(self.0, 8, 5, v))
    }
}
