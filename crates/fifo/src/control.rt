// FIFO control, CiFIFOCONn.
ghost use Rattle.std.specs.Prelude.{◌≡◌, ◌+◌, ◌<◌, min, get_or, refl};
ghost use Rattle.field.specs.Field.{read, write, Fits, flag, mark};
ghost use Rattle.std.proofs.Common.{rules};
ghost use Rattle.fifo.specs.Control.{CiFIFOCON, TFNRFNIE, TFHRFHIE, TFERFFIE, RXOVIE, TXATIE, RXTSEN, RTREN, TXEN, UINC, TXREQ, FRESET, TXPRI, TXAT, FSIZE, PLSIZE as PLSIZE_FIELD, payloads, payload_of, stored_size, is_fifo};

use field::{Numbered, Register};

// What PLSIZE means, in bytes.
pub const PLSIZE: [usize; 8] = [8, 12, 16, 20, 24, 32, 48, 64];

pub fn payload_bytes(plsize: u32) -> usize
    requires { plsize < 8 }
    ensures { result ≡ get_or payloads plsize 0 }
{
    PLSIZE[plsize as usize]
}

// The FIFOs that a call may name.
#[tactic(auto, unfolding(crate::specs::Control::is_fifo))]
pub fn is_fifo(n: u32) -> bool
    ensures { result ≡ is_fifo n }
{
    matches!(n, 1..=31)
}

// What the control words of a FIFO and of the transmit queue share.
pub trait ControlWord: Register {
    final fn txatie(self) -> bool
        ensures { result ≡ flag TXATIE (Self.word self) }
    {
        field::bit(self.word(), 4)
    }

    final fn with_txatie(self, on: bool) -> Self
        ensures { Self.word result ≡ mark TXATIE on (Self.word self) }
    {
        Self::of_word(field::set_bit(self.word(), 4, on))
    }

    final fn txen(self) -> bool
        ensures { result ≡ flag TXEN (Self.word self) }
    {
        field::bit(self.word(), 7)
    }

    // In the chip the transmit queue's TXEN is 1 whatever is written.
    final fn with_txen(self, on: bool) -> Self
        ensures { Self.word result ≡ mark TXEN on (Self.word self) }
    {
        Self::of_word(field::set_bit(self.word(), 7, on))
    }

    final fn uinc(self) -> bool
        ensures { result ≡ flag UINC (Self.word self) }
    {
        field::bit(self.word(), 8)
    }

    final fn with_uinc(self, on: bool) -> Self
        ensures { Self.word result ≡ mark UINC on (Self.word self) }
    {
        Self::of_word(field::set_bit(self.word(), 8, on))
    }

    final fn txreq(self) -> bool
        ensures { result ≡ flag TXREQ (Self.word self) }
    {
        field::bit(self.word(), 9)
    }

    final fn with_txreq(self, on: bool) -> Self
        ensures { Self.word result ≡ mark TXREQ on (Self.word self) }
    {
        Self::of_word(field::set_bit(self.word(), 9, on))
    }

    final fn freset(self) -> bool
        ensures { result ≡ flag FRESET (Self.word self) }
    {
        field::bit(self.word(), 10)
    }

    final fn with_freset(self, on: bool) -> Self
        ensures { Self.word result ≡ mark FRESET on (Self.word self) }
    {
        Self::of_word(field::set_bit(self.word(), 10, on))
    }

    final fn txpri(self) -> u32
        ensures { result ≡ read TXPRI (Self.word self) }
    {
        field::get(self.word(), 16, 5)
    }

    final fn with_txpri(self, v: u32) -> Self
        requires { Fits TXPRI v }
        ensures { Self.word result ≡ write TXPRI v (Self.word self) }
    {
        Self::of_word(field::set(self.word(), 16, 5, v))
    }

    // 3 is unlimited attempts, like 2.
    final fn txat(self) -> u32
        ensures { result ≡ min (read TXAT (Self.word self)) 2 }
    {
        field::get(self.word(), 21, 2).min(2)
    }

    final fn with_txat(self, v: u32) -> Self
        requires { Fits TXAT v }
        ensures { Self.word result ≡ write TXAT v (Self.word self) }
    {
        Self::of_word(field::set(self.word(), 21, 2, v))
    }

    final fn fsize(self) -> u32
        ensures { result ≡ read FSIZE (Self.word self) }
    {
        field::get(self.word(), 24, 5)
    }

    final fn with_fsize(self, v: u32) -> Self
        requires { Fits FSIZE v }
        ensures { Self.word result ≡ write FSIZE v (Self.word self) }
    {
        Self::of_word(field::set(self.word(), 24, 5, v))
    }

    final fn plsize(self) -> u32
        ensures { result ≡ read PLSIZE_FIELD (Self.word self) }
    {
        field::get(self.word(), 29, 3)
    }

    final fn with_plsize(self, v: u32) -> Self
        requires { Fits PLSIZE_FIELD v }
        ensures { Self.word result ≡ write PLSIZE_FIELD v (Self.word self) }
    {
        Self::of_word(field::set(self.word(), 29, 3, v))
    }

    // How many messages there is room for.
    final fn fifo_size(self) -> u32
        ensures { result ≡ read FSIZE (Self.word self) + 1 }
    {
        field::get(self.word(), 24, 5) + 1
    }

    // Above 32 stores what 32 does. Size 0 has no meaning: a caller refuses it.
    final fn with_fifo_size(self, size: u32) -> Self
        requires { 0 < size }
        ensures { Self.word result ≡ write FSIZE (stored_size size) (Self.word self) }
    {
        Self::of_word(field::set(self.word(), 24, 5, (size - 1).min(31)))
    }

    // How many bytes of payload a message may have.
    #[tactic(auto, unfolding(crate::specs::Control::payload_of))]
    final fn payload_size(self) -> usize
        ensures { result ≡ payload_of (Self.word self) }
    {
        payload_bytes(field::get(self.word(), 29, 3))
    }
}

#[derive(Clone, Copy)]
pub struct FifoControl(pub u32);

impl Register for FifoControl {
    ghost kind = { CiFIFOCON };

    ghost word = { λ r. r.0 };

    ghost ADDRESS = { CiFIFOCON.address 1 };

    ghost RESET = { CiFIFOCON.reset };

    ghost reset_is = { refl };

    const ADDRESS: u16 = FifoControl::FIRST;

    const RESET: u32 = 0x0060_0400;

    fn word(self) -> u32 {
        self.0
    }

    fn of_word(w: u32) -> FifoControl {
        FifoControl(w)
    }
}

impl Numbered for FifoControl {
    ghost LOWEST = { 1 };

    ghost STEP = { 12 };

    ghost steps = { Prim.search rules };

    const LOWEST: u16 = 1;

    const STEP: u16 = 12;
}

impl ControlWord for FifoControl {}

impl FifoControl {
    // The address in FIFO 1.
    pub const FIRST: u16 = 0x05C;

    pub fn tfnrfnie(self) -> bool
        ensures { result ≡ flag TFNRFNIE self.0 }
    {
        field::bit(self.0, 0)
    }

    pub fn with_tfnrfnie(self, on: bool) -> FifoControl
        ensures { result.0 ≡ mark TFNRFNIE on self.0 }
    {
        FifoControl(field::set_bit(self.0, 0, on))
    }

    pub fn tfhrfhie(self) -> bool
        ensures { result ≡ flag TFHRFHIE self.0 }
    {
        field::bit(self.0, 1)
    }

    pub fn with_tfhrfhie(self, on: bool) -> FifoControl
        ensures { result.0 ≡ mark TFHRFHIE on self.0 }
    {
        FifoControl(field::set_bit(self.0, 1, on))
    }

    pub fn tferffie(self) -> bool
        ensures { result ≡ flag TFERFFIE self.0 }
    {
        field::bit(self.0, 2)
    }

    pub fn with_tferffie(self, on: bool) -> FifoControl
        ensures { result.0 ≡ mark TFERFFIE on self.0 }
    {
        FifoControl(field::set_bit(self.0, 2, on))
    }

    pub fn rxovie(self) -> bool
        ensures { result ≡ flag RXOVIE self.0 }
    {
        field::bit(self.0, 3)
    }

    pub fn with_rxovie(self, on: bool) -> FifoControl
        ensures { result.0 ≡ mark RXOVIE on self.0 }
    {
        FifoControl(field::set_bit(self.0, 3, on))
    }

    pub fn rxtsen(self) -> bool
        ensures { result ≡ flag RXTSEN self.0 }
    {
        field::bit(self.0, 5)
    }

    pub fn with_rxtsen(self, on: bool) -> FifoControl
        ensures { result.0 ≡ mark RXTSEN on self.0 }
    {
        FifoControl(field::set_bit(self.0, 5, on))
    }

    pub fn rtren(self) -> bool
        ensures { result ≡ flag RTREN self.0 }
    {
        field::bit(self.0, 6)
    }

    pub fn with_rtren(self, on: bool) -> FifoControl
        ensures { result.0 ≡ mark RTREN on self.0 }
    {
        FifoControl(field::set_bit(self.0, 6, on))
    }
}
