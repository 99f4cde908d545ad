// Input and output control, IOCON. A pin's number is taken modulo 2.
ghost use Rattle.std.specs.Prelude.{◌≡◌, ◌%◌, refl};
ghost use Rattle.field.specs.Field.{flag, mark};
ghost use Rattle.chip.specs.IoControl.{IOCON, TRIS, LAT, GPIO, PM, XSTBYEN, TXCANOD, SOF, INTOD};

use field::{Register, Single};

#[derive(Clone, Copy)]
pub struct IoControl(pub u32);

impl Register for IoControl {
    ghost kind = { IOCON };

    ghost word = { λ r. r.0 };

    ghost ADDRESS = { IOCON.address 0 };

    ghost RESET = { IOCON.reset };

    ghost reset_is = { refl };

    const ADDRESS: u16 = 0xE04;

    const RESET: u32 = 0x0300_0003;

    fn word(self) -> u32 {
        self.0
    }

    fn of_word(w: u32) -> IoControl {
        IoControl(w)
    }
}

impl Single for IoControl {
    ghost address_is = { refl };
}

impl IoControl {
    pub fn tris(self, pin: u8) -> bool
        ensures { result ≡ flag (TRIS (pin % 2)) self.0 }
    {
        field::bit(self.0, pin as u32 % 2)
    }

    pub fn with_tris(self, pin: u8, on: bool) -> IoControl
        ensures { result.0 ≡ mark (TRIS (pin % 2)) on self.0 }
    {
        IoControl(field::set_bit(self.0, pin as u32 % 2, on))
    }

    pub fn lat(self, pin: u8) -> bool
        ensures { result ≡ flag (LAT (pin % 2)) self.0 }
    {
        field::bit(self.0, 8 + pin as u32 % 2)
    }

    pub fn with_lat(self, pin: u8, on: bool) -> IoControl
        ensures { result.0 ≡ mark (LAT (pin % 2)) on self.0 }
    {
        IoControl(field::set_bit(self.0, 8 + pin as u32 % 2, on))
    }

    pub fn gpio(self, pin: u8) -> bool
        ensures { result ≡ flag (GPIO (pin % 2)) self.0 }
    {
        field::bit(self.0, 16 + pin as u32 % 2)
    }

    pub fn with_gpio(self, pin: u8, on: bool) -> IoControl
        ensures { result.0 ≡ mark (GPIO (pin % 2)) on self.0 }
    {
        IoControl(field::set_bit(self.0, 16 + pin as u32 % 2, on))
    }

    pub fn pm(self, pin: u8) -> bool
        ensures { result ≡ flag (PM (pin % 2)) self.0 }
    {
        field::bit(self.0, 24 + pin as u32 % 2)
    }

    pub fn with_pm(self, pin: u8, on: bool) -> IoControl
        ensures { result.0 ≡ mark (PM (pin % 2)) on self.0 }
    {
        IoControl(field::set_bit(self.0, 24 + pin as u32 % 2, on))
    }

    pub fn xstbyen(self) -> bool
        ensures { result ≡ flag XSTBYEN self.0 }
    {
        field::bit(self.0, 6)
    }

    pub fn with_xstbyen(self, on: bool) -> IoControl
        ensures { result.0 ≡ mark XSTBYEN on self.0 }
    {
        IoControl(field::set_bit(self.0, 6, on))
    }

    pub fn txcanod(self) -> bool
        ensures { result ≡ flag TXCANOD self.0 }
    {
        field::bit(self.0, 28)
    }

    pub fn with_txcanod(self, on: bool) -> IoControl
        ensures { result.0 ≡ mark TXCANOD on self.0 }
    {
        IoControl(field::set_bit(self.0, 28, on))
    }

    pub fn sof(self) -> bool
        ensures { result ≡ flag SOF self.0 }
    {
        field::bit(self.0, 29)
    }

    pub fn with_sof(self, on: bool) -> IoControl
        ensures { result.0 ≡ mark SOF on self.0 }
    {
        IoControl(field::set_bit(self.0, 29, on))
    }

    pub fn intod(self) -> bool
        ensures { result ≡ flag INTOD self.0 }
    {
        field::bit(self.0, 30)
    }

    pub fn with_intod(self, on: bool) -> IoControl
        ensures { result.0 ≡ mark INTOD on self.0 }
    {
        IoControl(field::set_bit(self.0, 30, on))
    }
}
