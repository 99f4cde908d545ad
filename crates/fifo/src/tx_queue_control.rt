// Transmit queue control, CiTXQCON: a FIFO's control word, but for the two enables in its low bits.
ghost use Rattle.std.specs.Prelude.{◌≡◌, ◌+◌, ◌<◌, min, refl};
ghost use Rattle.field.specs.Field.{read, write, Fits, flag, mark};
ghost use Rattle.fifo.specs.Control.{TXATIE, TXEN, UINC, TXREQ, FRESET, TXPRI, TXAT, FSIZE, PLSIZE, payload_of, stored_size};
ghost use Rattle.fifo.specs.TxQueueControl.{CiTXQCON, TXQNIE, TXQEIE};

use crate::ControlWord;
use field::{Register, Single};

#[derive(Clone, Copy)]
pub struct TxQueueControl(pub u32);

impl Register for TxQueueControl {
    ghost kind = { CiTXQCON };

    ghost word = { λ r. r.0 };

    ghost ADDRESS = { CiTXQCON.address 0 };

    ghost RESET = { CiTXQCON.reset };

    ghost reset_is = { refl };

    const ADDRESS: u16 = 0x050;

    const RESET: u32 = 0x0060_0480;

    fn word(self) -> u32 {
        self.0
    }

    fn of_word(w: u32) -> TxQueueControl {
        TxQueueControl(w)
    }
}

impl Single for TxQueueControl {
    ghost address_is = { refl };
}

impl ControlWord for TxQueueControl {}

impl TxQueueControl {
    pub fn txqnie(self) -> bool
        ensures { result ≡ flag TXQNIE self.0 }
    {
        field::bit(self.0, 0)
    }

    pub fn with_txqnie(self, on: bool) -> TxQueueControl
        ensures { result.0 ≡ mark TXQNIE on self.0 }
    {
        TxQueueControl(field::set_bit(self.0, 0, on))
    }

    pub fn txqeie(self) -> bool
        ensures { result ≡ flag TXQEIE self.0 }
    {
        field::bit(self.0, 2)
    }

    pub fn with_txqeie(self, on: bool) -> TxQueueControl
        ensures { result.0 ≡ mark TXQEIE on self.0 }
    {
        TxQueueControl(field::set_bit(self.0, 2, on))
    }
}
