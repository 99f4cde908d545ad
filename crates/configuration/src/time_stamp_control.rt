// Time stamp control, CiTSCON.
ghost use Rattle.std.specs.Prelude.{◌≡◌, refl};
ghost use Rattle.field.specs.Field.{read, write, Fits, flag, mark};
ghost use Rattle.configuration.specs.TimeStampControl.{CiTSCON, TBCPRE, TBCEN, TSEOF, TSRES};

use field::{Register, Single};

#[derive(Clone, Copy)]
pub struct TimeStampControl(pub u32);

impl Register for TimeStampControl {
    ghost kind = { CiTSCON };

    ghost word = { λ r. r.0 };

    ghost ADDRESS = { CiTSCON.address 0 };

    ghost RESET = { CiTSCON.reset };

    ghost reset_is = { refl };

    const ADDRESS: u16 = 0x014;

    const RESET: u32 = 0x0000_0000;

    fn word(self) -> u32 {
        self.0
    }

    fn of_word(w: u32) -> TimeStampControl {
        TimeStampControl(w)
    }
}

impl Single for TimeStampControl {
    ghost address_is = { refl };
}

impl TimeStampControl {
    pub fn tbcpre(self) -> u32
        ensures { result ≡ read TBCPRE self.0 }
    {
        field::get(self.0, 0, 10)
    }

    pub fn with_tbcpre(self, v: u32) -> TimeStampControl
        requires { Fits TBCPRE v }
        ensures { result.0 ≡ write TBCPRE v self.0 }
    {
        TimeStampControl(field::set(self.0, 0, 10, v))
    }

    pub fn tbcen(self) -> bool
        ensures { result ≡ flag TBCEN self.0 }
    {
        field::bit(self.0, 16)
    }

    pub fn with_tbcen(self, on: bool) -> TimeStampControl
        ensures { result.0 ≡ mark TBCEN on self.0 }
    {
        TimeStampControl(field::set_bit(self.0, 16, on))
    }

    pub fn tseof(self) -> bool
        ensures { result ≡ flag TSEOF self.0 }
    {
        field::bit(self.0, 17)
    }

    pub fn with_tseof(self, on: bool) -> TimeStampControl
        ensures { result.0 ≡ mark TSEOF on self.0 }
    {
        TimeStampControl(field::set_bit(self.0, 17, on))
    }

    pub fn tsres(self) -> bool
        ensures { result ≡ flag TSRES self.0 }
    {
        field::bit(self.0, 18)
    }

    pub fn with_tsres(self, on: bool) -> TimeStampControl
        ensures { result.0 ≡ mark TSRES on self.0 }
    {
        TimeStampControl(field::set_bit(self.0, 18, on))
    }
}
