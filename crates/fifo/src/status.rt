// FIFO status, CiFIFOSTAn.
ghost use Rattle.std.specs.Prelude.{◌≡◌, refl};
ghost use Rattle.field.specs.Field.{read, write, Fits, flag, mark};
ghost use Rattle.std.proofs.Common.{rules};
ghost use Rattle.fifo.specs.Status.{CiFIFOSTA, TFNRFNIF, TFHRFHIF, TFERFFIF, RXOVIF, TXATIF, TXERR, TXLARB, TXABT, FIFOCI};

use field::{Numbered, Register};

// What the status words of a FIFO and of the transmit queue share.
pub trait StatusWord: Register {
    final fn txatif(self) -> bool
        ensures { result ≡ flag TXATIF (Self.word self) }
    {
        field::bit(self.word(), 4)
    }

    final fn with_txatif(self, on: bool) -> Self
        ensures { Self.word result ≡ mark TXATIF on (Self.word self) }
    {
        Self::of_word(field::set_bit(self.word(), 4, on))
    }

    final fn txerr(self) -> bool
        ensures { result ≡ flag TXERR (Self.word self) }
    {
        field::bit(self.word(), 5)
    }

    final fn with_txerr(self, on: bool) -> Self
        ensures { Self.word result ≡ mark TXERR on (Self.word self) }
    {
        Self::of_word(field::set_bit(self.word(), 5, on))
    }

    final fn txlarb(self) -> bool
        ensures { result ≡ flag TXLARB (Self.word self) }
    {
        field::bit(self.word(), 6)
    }

    final fn with_txlarb(self, on: bool) -> Self
        ensures { Self.word result ≡ mark TXLARB on (Self.word self) }
    {
        Self::of_word(field::set_bit(self.word(), 6, on))
    }

    final fn txabt(self) -> bool
        ensures { result ≡ flag TXABT (Self.word self) }
    {
        field::bit(self.word(), 7)
    }

    final fn with_txabt(self, on: bool) -> Self
        ensures { Self.word result ≡ mark TXABT on (Self.word self) }
    {
        Self::of_word(field::set_bit(self.word(), 7, on))
    }
}

#[derive(Clone, Copy)]
pub struct FifoStatus(pub u32);

impl Register for FifoStatus {
    ghost kind = { CiFIFOSTA };

    ghost word = { λ r. r.0 };

    ghost ADDRESS = { CiFIFOSTA.address 1 };

    ghost RESET = { CiFIFOSTA.reset };

    ghost reset_is = { refl };

    const ADDRESS: u16 = FifoStatus::FIRST;

    const RESET: u32 = 0x0000_0000;

    fn word(self) -> u32 {
        self.0
    }

    fn of_word(w: u32) -> FifoStatus {
        FifoStatus(w)
    }
}

impl Numbered for FifoStatus {
    ghost LOWEST = { 1 };

    ghost STEP = { 12 };

    ghost steps = { Prim.search rules };

    const LOWEST: u16 = 1;

    const STEP: u16 = 12;
}

impl StatusWord for FifoStatus {}

impl FifoStatus {
    // The address in FIFO 1.
    pub const FIRST: u16 = 0x060;

    pub fn tfnrfnif(self) -> bool
        ensures { result ≡ flag TFNRFNIF self.0 }
    {
        field::bit(self.0, 0)
    }

    pub fn with_tfnrfnif(self, on: bool) -> FifoStatus
        ensures { result.0 ≡ mark TFNRFNIF on self.0 }
    {
        FifoStatus(field::set_bit(self.0, 0, on))
    }

    pub fn tfhrfhif(self) -> bool
        ensures { result ≡ flag TFHRFHIF self.0 }
    {
        field::bit(self.0, 1)
    }

    pub fn with_tfhrfhif(self, on: bool) -> FifoStatus
        ensures { result.0 ≡ mark TFHRFHIF on self.0 }
    {
        FifoStatus(field::set_bit(self.0, 1, on))
    }

    pub fn tferffif(self) -> bool
        ensures { result ≡ flag TFERFFIF self.0 }
    {
        field::bit(self.0, 2)
    }

    pub fn with_tferffif(self, on: bool) -> FifoStatus
        ensures { result.0 ≡ mark TFERFFIF on self.0 }
    {
        FifoStatus(field::set_bit(self.0, 2, on))
    }

    pub fn rxovif(self) -> bool
        ensures { result ≡ flag RXOVIF self.0 }
    {
        field::bit(self.0, 3)
    }

    pub fn with_rxovif(self, on: bool) -> FifoStatus
        ensures { result.0 ≡ mark RXOVIF on self.0 }
    {
        FifoStatus(field::set_bit(self.0, 3, on))
    }

    pub fn fifoci(self) -> u32
        ensures { result ≡ read FIFOCI self.0 }
    {
        field::get(self.0, 8, 5)
    }

    pub fn with_fifoci(self, v: u32) -> FifoStatus
        requires { Fits FIFOCI v }
        ensures { result.0 ≡ write FIFOCI v self.0 }
    {
        FifoStatus(field::set(self.0, 8, 5, v))
    }
}
