// Interrupts, CiINT: a flag for each cause, and its enable.
#![tactic(auto)]

ghost use Rattle.std.specs.Prelude.{◌≡◌, ◌<◌, refl};
ghost use Rattle.field.specs.Field.{flag, mark};
ghost use Rattle.interrupt.specs.Interrupt.{CiINT, cause_bit, IF, IE};

use field::{Register, Single};

// The data sheet's names without IF and IE.
#[derive(Clone, Copy)]
pub enum Cause {
    Tx,
    Rx,
    Tbc,
    Mod,
    Tef,
    Ecc,
    SpiCrc,
    TxAt,
    RxOv,
    Serr,
    Cerr,
    Wak,
    Ivm,
}

fn bit_of(cause: Cause) -> u32
    ensures { (result ≡ cause_bit cause) × (result < 16) }
{
    match cause {
        Cause::Tx => 0,
        Cause::Rx => 1,
        Cause::Tbc => 2,
        Cause::Mod => 3,
        Cause::Tef => 4,
        Cause::Ecc => 8,
        Cause::SpiCrc => 9,
        Cause::TxAt => 10,
        Cause::RxOv => 11,
        Cause::Serr => 12,
        Cause::Cerr => 13,
        Cause::Wak => 14,
        Cause::Ivm => 15,
    }
}

#[derive(Clone, Copy)]
pub struct Interrupt(pub u32);

impl Register for Interrupt {
    ghost kind = { CiINT };

    ghost word = { λ r. r.0 };

    ghost ADDRESS = { CiINT.address 0 };

    ghost RESET = { CiINT.reset };

    ghost reset_is = { refl };

    const ADDRESS: u16 = 0x01C;

    const RESET: u32 = 0x0000_0000;

    fn word(self) -> u32 {
        self.0
    }

    fn of_word(w: u32) -> Interrupt {
        Interrupt(w)
    }
}

impl Single for Interrupt {
    ghost address_is = { refl };
}

impl Interrupt {
    // TXIF, RXIF and the others.
    pub fn flagged(self, cause: Cause) -> bool
        ensures { result ≡ flag (IF cause) self.0 }
    {
        field::bit(self.0, bit_of(cause))
    }

    pub fn with_flagged(self, cause: Cause, on: bool) -> Interrupt
        ensures { result.0 ≡ mark (IF cause) on self.0 }
    {
        Interrupt(field::set_bit(self.0, bit_of(cause), on))
    }

    // TXIE, RXIE and the others.
    pub fn enabled(self, cause: Cause) -> bool
        ensures { result ≡ flag (IE cause) self.0 }
    {
        field::bit(self.0, bit_of(cause) + 16)
    }

    pub fn with_enabled(self, cause: Cause, on: bool) -> Interrupt
        ensures { result.0 ≡ mark (IE cause) on self.0 }
    {
        Interrupt(field::set_bit(self.0, bit_of(cause) + 16, on))
    }
}
