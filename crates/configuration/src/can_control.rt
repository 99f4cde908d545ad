// CAN control, CiCON.
ghost use Rattle.std.specs.Prelude.{◌≡◌, refl};
ghost use Rattle.field.specs.Field.{read, write, Fits, flag, mark};
ghost use Rattle.configuration.specs.CanControl.{CiCON, DNCNT, ISOCRCEN, PXEDIS, WAKFIL, WFT, BUSY, BRSDIS, RTXAT, ESIGM, SERR2LOM, STEF, TXQEN, OPMOD, REQOP, ABAT, TXBWS};

use field::{Register, Single};

#[derive(Clone, Copy)]
pub struct CanControl(pub u32);

impl Register for CanControl {
    ghost kind = { CiCON };

    ghost word = { λ r. r.0 };

    ghost ADDRESS = { CiCON.address 0 };

    ghost RESET = { CiCON.reset };

    ghost reset_is = { refl };

    const ADDRESS: u16 = 0x000;

    const RESET: u32 = 0x0498_0760;

    fn word(self) -> u32 {
        self.0
    }

    fn of_word(w: u32) -> CanControl {
        CanControl(w)
    }
}

impl Single for CanControl {
    ghost address_is = { refl };
}

impl CanControl {
    pub fn dncnt(self) -> u32
        ensures { result ≡ read DNCNT self.0 }
    {
        field::get(self.0, 0, 5)
    }

    pub fn with_dncnt(self, v: u32) -> CanControl
        requires { Fits DNCNT v }
        ensures { result.0 ≡ write DNCNT v self.0 }
    {
        CanControl(field::set(self.0, 0, 5, v))
    }

    pub fn isocrcen(self) -> bool
        ensures { result ≡ flag ISOCRCEN self.0 }
    {
        field::bit(self.0, 5)
    }

    pub fn with_isocrcen(self, on: bool) -> CanControl
        ensures { result.0 ≡ mark ISOCRCEN on self.0 }
    {
        CanControl(field::set_bit(self.0, 5, on))
    }

    pub fn pxedis(self) -> bool
        ensures { result ≡ flag PXEDIS self.0 }
    {
        field::bit(self.0, 6)
    }

    pub fn with_pxedis(self, on: bool) -> CanControl
        ensures { result.0 ≡ mark PXEDIS on self.0 }
    {
        CanControl(field::set_bit(self.0, 6, on))
    }

    pub fn wakfil(self) -> bool
        ensures { result ≡ flag WAKFIL self.0 }
    {
        field::bit(self.0, 8)
    }

    pub fn with_wakfil(self, on: bool) -> CanControl
        ensures { result.0 ≡ mark WAKFIL on self.0 }
    {
        CanControl(field::set_bit(self.0, 8, on))
    }

    pub fn wft(self) -> u32
        ensures { result ≡ read WFT self.0 }
    {
        field::get(self.0, 9, 2)
    }

    pub fn with_wft(self, v: u32) -> CanControl
        requires { Fits WFT v }
        ensures { result.0 ≡ write WFT v self.0 }
    {
        CanControl(field::set(self.0, 9, 2, v))
    }

    pub fn busy(self) -> bool
        ensures { result ≡ flag BUSY self.0 }
    {
        field::bit(self.0, 11)
    }

    pub fn with_busy(self, on: bool) -> CanControl
        ensures { result.0 ≡ mark BUSY on self.0 }
    {
        CanControl(field::set_bit(self.0, 11, on))
    }

    pub fn brsdis(self) -> bool
        ensures { result ≡ flag BRSDIS self.0 }
    {
        field::bit(self.0, 12)
    }

    pub fn with_brsdis(self, on: bool) -> CanControl
        ensures { result.0 ≡ mark BRSDIS on self.0 }
    {
        CanControl(field::set_bit(self.0, 12, on))
    }

    pub fn rtxat(self) -> bool
        ensures { result ≡ flag RTXAT self.0 }
    {
        field::bit(self.0, 16)
    }

    pub fn with_rtxat(self, on: bool) -> CanControl
        ensures { result.0 ≡ mark RTXAT on self.0 }
    {
        CanControl(field::set_bit(self.0, 16, on))
    }

    pub fn esigm(self) -> bool
        ensures { result ≡ flag ESIGM self.0 }
    {
        field::bit(self.0, 17)
    }

    pub fn with_esigm(self, on: bool) -> CanControl
        ensures { result.0 ≡ mark ESIGM on self.0 }
    {
        CanControl(field::set_bit(self.0, 17, on))
    }

    pub fn serr2lom(self) -> bool
        ensures { result ≡ flag SERR2LOM self.0 }
    {
        field::bit(self.0, 18)
    }

    pub fn with_serr2lom(self, on: bool) -> CanControl
        ensures { result.0 ≡ mark SERR2LOM on self.0 }
    {
        CanControl(field::set_bit(self.0, 18, on))
    }

    pub fn stef(self) -> bool
        ensures { result ≡ flag STEF self.0 }
    {
        field::bit(self.0, 19)
    }

    pub fn with_stef(self, on: bool) -> CanControl
        ensures { result.0 ≡ mark STEF on self.0 }
    {
        CanControl(field::set_bit(self.0, 19, on))
    }

    pub fn txqen(self) -> bool
        ensures { result ≡ flag TXQEN self.0 }
    {
        field::bit(self.0, 20)
    }

    pub fn with_txqen(self, on: bool) -> CanControl
        ensures { result.0 ≡ mark TXQEN on self.0 }
    {
        CanControl(field::set_bit(self.0, 20, on))
    }

    pub fn opmod(self) -> u32
        ensures { result ≡ read OPMOD self.0 }
    {
        field::get(self.0, 21, 3)
    }

    pub fn with_opmod(self, v: u32) -> CanControl
        requires { Fits OPMOD v }
        ensures { result.0 ≡ write OPMOD v self.0 }
    {
        CanControl(field::set(self.0, 21, 3, v))
    }

    pub fn reqop(self) -> u32
        ensures { result ≡ read REQOP self.0 }
    {
        field::get(self.0, 24, 3)
    }

    pub fn with_reqop(self, v: u32) -> CanControl
        requires { Fits REQOP v }
        ensures { result.0 ≡ write REQOP v self.0 }
    {
        CanControl(field::set(self.0, 24, 3, v))
    }

    pub fn abat(self) -> bool
        ensures { result ≡ flag ABAT self.0 }
    {
        field::bit(self.0, 27)
    }

    pub fn with_abat(self, on: bool) -> CanControl
        ensures { result.0 ≡ mark ABAT on self.0 }
    {
        CanControl(field::set_bit(self.0, 27, on))
    }

    pub fn txbws(self) -> u32
        ensures { result ≡ read TXBWS self.0 }
    {
        field::get(self.0, 28, 4)
    }

    pub fn with_txbws(self, v: u32) -> CanControl
        requires { Fits TXBWS v }
        ensures { result.0 ≡ write TXBWS v self.0 }
    {
        CanControl(field::set(self.0, 28, 4, v))
    }
}
