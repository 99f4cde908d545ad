// A kind of register as a type over its word: its address, its word after RESET, and the word of a value.
ghost use Rattle.std.specs.Prelude.{ℕ, ◌≡◌};
ghost use Rattle.field.specs.Register.{Register as Kind, Carries, Steps};

pub trait Register: Copy {
    // As the data sheet lists it.
    ghost kind: { Kind };

    ghost word: { Self → ℕ };

    ghost ADDRESS: { ℕ };

    ghost RESET: { ℕ };

    // Of the first register of the kind.
    const ADDRESS: u16;

    const RESET: u32;

    fn word(self) -> u32
        ensures { result ≡ word self };

    fn of_word(w: u32) -> Self
        ensures { word result ≡ w };

    ghost reset_is: { RESET ≡ kind.reset };
}

// A kind that is there once.
pub trait Single: Register {
    ghost address_is: { Self.ADDRESS ≡ Self.kind.address 0 };

    final fn address() -> u16
        ensures { result ≡ Self.kind.address 0 }
    {
        Self::ADDRESS
    }

    final fn reset() -> Self
        ensures { Carries Self.kind 0 (Self.word result) Self.RESET Self.ADDRESS }
    {
        Self::of_word(Self::RESET)
    }
}

// A kind with a register for each of several numbers.
pub trait Numbered: Register {
    ghost LOWEST: { ℕ };

    ghost STEP: { ℕ };

    // The first's number.
    const LOWEST: u16;

    // From one's address to the next one's.
    const STEP: u16;

    ghost steps: { Steps Self.kind LOWEST STEP Self.ADDRESS };

    final fn address(n: u8) -> u16
        ensures { result ≡ Self.kind.address n }
    {
        Self::ADDRESS + Self::STEP * (n as u16) - Self::STEP * Self::LOWEST
    }

    final fn reset() -> Self
        ensures { Carries Self.kind LOWEST (Self.word result) Self.RESET Self.ADDRESS }
    {
        Self::of_word(Self::RESET)
    }
}
