// Oscillator control, OSC.
ghost use Rattle.std.specs.Prelude.{◌≡◌, refl};
ghost use Rattle.field.specs.Field.{read, write, Fits, flag, mark};
ghost use Rattle.chip.specs.OscillatorControl.{OSC, PLLEN, OSCDIS, LPMEN, SCLKDIV, CLKODIV, PLLRDY, OSCRDY, SCLKRDY};

use field::{Register, Single};

#[derive(Clone, Copy)]
pub struct OscillatorControl(pub u32);

impl Register for OscillatorControl {
    ghost kind = { OSC };

    ghost word = { λ r. r.0 };

    ghost ADDRESS = { OSC.address 0 };

    ghost RESET = { OSC.reset };

    ghost reset_is = { refl };

    const ADDRESS: u16 = 0xE00;

    const RESET: u32 = 0x0000_0460;

    fn word(self) -> u32 {
        self.0
    }

    fn of_word(w: u32) -> OscillatorControl {
        OscillatorControl(w)
    }
}

impl Single for OscillatorControl {
    ghost address_is = { refl };
}

impl OscillatorControl {
    pub fn pllen(self) -> bool
        ensures { result ≡ flag PLLEN self.0 }
    {
        field::bit(self.0, 0)
    }

    pub fn with_pllen(self, on: bool) -> OscillatorControl
        ensures { result.0 ≡ mark PLLEN on self.0 }
    {
        OscillatorControl(field::set_bit(self.0, 0, on))
    }

    pub fn oscdis(self) -> bool
        ensures { result ≡ flag OSCDIS self.0 }
    {
        field::bit(self.0, 2)
    }

    pub fn with_oscdis(self, on: bool) -> OscillatorControl
        ensures { result.0 ≡ mark OSCDIS on self.0 }
    {
        OscillatorControl(field::set_bit(self.0, 2, on))
    }

    pub fn lpmen(self) -> bool
        ensures { result ≡ flag LPMEN self.0 }
    {
        field::bit(self.0, 3)
    }

    pub fn with_lpmen(self, on: bool) -> OscillatorControl
        ensures { result.0 ≡ mark LPMEN on self.0 }
    {
        OscillatorControl(field::set_bit(self.0, 3, on))
    }

    pub fn sclkdiv(self) -> bool
        ensures { result ≡ flag SCLKDIV self.0 }
    {
        field::bit(self.0, 4)
    }

    pub fn with_sclkdiv(self, on: bool) -> OscillatorControl
        ensures { result.0 ≡ mark SCLKDIV on self.0 }
    {
        OscillatorControl(field::set_bit(self.0, 4, on))
    }

    pub fn clkodiv(self) -> u32
        ensures { result ≡ read CLKODIV self.0 }
    {
        field::get(self.0, 5, 2)
    }

    pub fn with_clkodiv(self, v: u32) -> OscillatorControl
        requires { Fits CLKODIV v }
        ensures { result.0 ≡ write CLKODIV v self.0 }
    {
        OscillatorControl(field::set(self.0, 5, 2, v))
    }

    pub fn pllrdy(self) -> bool
        ensures { result ≡ flag PLLRDY self.0 }
    {
        field::bit(self.0, 8)
    }

    pub fn with_pllrdy(self, on: bool) -> OscillatorControl
        ensures { result.0 ≡ mark PLLRDY on self.0 }
    {
        OscillatorControl(field::set_bit(self.0, 8, on))
    }

    pub fn oscrdy(self) -> bool
        ensures { result ≡ flag OSCRDY self.0 }
    {
        field::bit(self.0, 10)
    }

    pub fn with_oscrdy(self, on: bool) -> OscillatorControl
        ensures { result.0 ≡ mark OSCRDY on self.0 }
    {
        OscillatorControl(field::set_bit(self.0, 10, on))
    }

    pub fn sclkrdy(self) -> bool
        ensures { result ≡ flag SCLKRDY self.0 }
    {
        field::bit(self.0, 12)
    }

    pub fn with_sclkrdy(self, on: bool) -> OscillatorControl
        ensures { result.0 ≡ mark SCLKRDY on self.0 }
    {
        OscillatorControl(field::set_bit(self.0, 12, on))
    }
}
