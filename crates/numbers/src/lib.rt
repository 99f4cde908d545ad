// The number of each refusal.
#![tactic(auto)]

ghost use Rattle.std.specs.Prelude.{◌≡◌};
ghost use Rattle.numbers.specs.Numbers.{number_of};

use spi::Refusal;

pub fn number(refusal: Refusal) -> u32
    ensures { result ≡ number_of refusal }
{
    match refusal {
        Refusal::SpiRead => 1,
        Refusal::SpiWrite => 2,
        Refusal::InvalidRamAddress(_) => 3,
        Refusal::InvalidReadLength(_) => 4,
        Refusal::InvalidWriteLength(_) => 5,
        Refusal::FifoNotTx => 6,
        Refusal::FifoTooSmall => 7,
        Refusal::FifoFull => 8,
        Refusal::FifoNotRx => 9,
        Refusal::CrcMismatch => 10,
        Refusal::ConfigurationModeTimeout => 11,
        Refusal::ChangeOpModeTimeout => 12,
        Refusal::SpiFailedRamEcho => 13,
        Refusal::PllNotReady => 14,
        Refusal::BadNumber => 20,
        Refusal::BadIdentifier => 21,
        Refusal::BadPayload => 22,
        Refusal::BadSetting => 24,
        Refusal::BadUserAddress => 25,
        Refusal::WrongAnswer => 26,
        Refusal::NoLayout => 27,
        Refusal::BufferTooSmall => 28,
        Refusal::NoMatch => 30,
        Refusal::DeviceNet => 31,
        Refusal::EmptyList => 32,
        Refusal::NotCarried => 33,
        Refusal::TxQueueDisabled => 34,
        Refusal::LengthBeyondSlot => 35,
    }
}
