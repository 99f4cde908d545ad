// Transmitter delay compensation, CiTDC.
ghost use Rattle.std.specs.Prelude.{◌≡◌, min, refl};
ghost use Rattle.field.specs.Field.{read, write, Fits, flag, mark};
ghost use Rattle.bit_timing.specs.Delay.{CiTDC, TDCV, TDCO, TDCMOD, SID11EN, EDGFLTEN};
ghost use Rattle.bit_timing.specs.Signed.{seven_of, number_of, Small};

use crate::signed;
use field::{Register, Single};

#[derive(Clone, Copy)]
pub struct TransmitterDelayCompensation(pub u32);

impl Register for TransmitterDelayCompensation {
    ghost kind = { CiTDC };

    ghost word = { λ r. r.0 };

    ghost ADDRESS = { CiTDC.address 0 };

    ghost RESET = { CiTDC.reset };

    ghost reset_is = { refl };

    const ADDRESS: u16 = 0x00C;

    const RESET: u32 = 0x0002_1000;

    fn word(self) -> u32 {
        self.0
    }

    fn of_word(w: u32) -> TransmitterDelayCompensation {
        TransmitterDelayCompensation(w)
    }
}

impl Single for TransmitterDelayCompensation {
    ghost address_is = { refl };
}

impl TransmitterDelayCompensation {
    pub fn tdcv(self) -> u32
        ensures { result ≡ read TDCV self.0 }
    {
        field::get(self.0, 0, 6)
    }

    pub fn with_tdcv(self, v: u32) -> TransmitterDelayCompensation
        requires { Fits TDCV v }
        ensures { result.0 ≡ write TDCV v self.0 }
    {
        TransmitterDelayCompensation(field::set(self.0, 0, 6, v))
    }

    pub fn tdco(self) -> i32
        ensures { result ≡ number_of (read TDCO self.0) }
    {
        signed::number(field::get(self.0, 8, 7))
    }

    pub fn with_tdco(self, t: i32) -> TransmitterDelayCompensation
        requires { Small t }
        ensures { result.0 ≡ write TDCO (seven_of t) self.0 }
    {
        TransmitterDelayCompensation(field::set(self.0, 8, 7, signed::seven(t)))
    }

    // 3 is automatic, like 2.
    pub fn tdcmod(self) -> u32
        ensures { result ≡ min (read TDCMOD self.0) 2 }
    {
        field::get(self.0, 16, 2).min(2)
    }

    pub fn with_tdcmod(self, v: u32) -> TransmitterDelayCompensation
        requires { Fits TDCMOD v }
        ensures { result.0 ≡ write TDCMOD v self.0 }
    {
        TransmitterDelayCompensation(field::set(self.0, 16, 2, v))
    }

    pub fn sid11en(self) -> bool
        ensures { result ≡ flag SID11EN self.0 }
    {
        field::bit(self.0, 24)
    }

    pub fn with_sid11en(self, on: bool) -> TransmitterDelayCompensation
        ensures { result.0 ≡ mark SID11EN on self.0 }
    {
        TransmitterDelayCompensation(field::set_bit(self.0, 24, on))
    }

    pub fn edgflten(self) -> bool
        ensures { result ≡ flag EDGFLTEN self.0 }
    {
        field::bit(self.0, 25)
    }

    pub fn with_edgflten(self, on: bool) -> TransmitterDelayCompensation
        ensures { result.0 ≡ mark EDGFLTEN on self.0 }
    {
        TransmitterDelayCompensation(field::set_bit(self.0, 25, on))
    }
}
