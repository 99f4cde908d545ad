// What the nominal and the data bit time share: fields of the same names, at the same lowest bits.
ghost use Rattle.std.specs.Prelude.{ℕ, ◌≡◌};
ghost use Rattle.field.specs.Field.{read, write, Fits};
ghost use Rattle.bit_timing.specs.BitTime.{IsBitTime, SJW, TSEG2, TSEG1, BRP};

use field::Register;

pub trait BitTime: Register {
    ghost BITS: { ℕ };

    // Of SJW and of TSEG2; TSEG1 has one more.
    const BITS: u32;

    ghost is_bit_time: { IsBitTime Self.kind BITS };

    final fn sjw(self) -> u32
        ensures { result ≡ read (SJW BITS) (Self.word self) }
    {
        field::get(self.word(), 0, Self::BITS)
    }

    final fn with_sjw(self, v: u32) -> Self
        requires { Fits (SJW BITS) v }
        ensures { Self.word result ≡ write (SJW BITS) v (Self.word self) }
    {
        Self::of_word(field::set(self.word(), 0, Self::BITS, v))
    }

    final fn tseg2(self) -> u32
        ensures { result ≡ read (TSEG2 BITS) (Self.word self) }
    {
        field::get(self.word(), 8, Self::BITS)
    }

    final fn with_tseg2(self, v: u32) -> Self
        requires { Fits (TSEG2 BITS) v }
        ensures { Self.word result ≡ write (TSEG2 BITS) v (Self.word self) }
    {
        Self::of_word(field::set(self.word(), 8, Self::BITS, v))
    }

    final fn tseg1(self) -> u32
        ensures { result ≡ read (TSEG1 BITS) (Self.word self) }
    {
        field::get(self.word(), 16, Self::BITS + 1)
    }

    final fn with_tseg1(self, v: u32) -> Self
        requires { Fits (TSEG1 BITS) v }
        ensures { Self.word result ≡ write (TSEG1 BITS) v (Self.word self) }
    {
        Self::of_word(field::set(self.word(), 16, Self::BITS + 1, v))
    }

    final fn brp(self) -> u32
        ensures { result ≡ read BRP (Self.word self) }
    {
        field::get(self.word(), 24, 8)
    }

    final fn with_brp(self, v: u32) -> Self
        requires { Fits BRP v }
        ensures { Self.word result ≡ write BRP v (Self.word self) }
    {
        Self::of_word(field::set(self.word(), 24, 8, v))
    }
}
