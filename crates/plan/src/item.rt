// The items of a plan.
ghost use Rattle.std.specs.Prelude.{◌≡◌, ◌-◌};
ghost use Rattle.plan.specs.Item.{shown, late_of, echo_word, is_there};

use crate::Change;
use chip::OscillatorControl;
use configuration::CanControl;
use spi::Refusal;

// What is waited for: the mode that CiCON shows, with the refusal where it does not come; PLLRDY.
#[derive(Clone, Copy)]
pub enum Poll {
    Mode(u32, Refusal),
    Pll,
}

#[derive(Clone, Copy)]
pub enum Item {
    // A register is read and written.
    Change(Change),
    // A register is read until it shows what is waited for, at most so many times more after the first, with a wait between.
    Poll(Poll, u8),
    // Each bit by itself is written to the RAM's first word and read back.
    Echo,
    // Nothing: what was not asked for.
    Nothing,
}

pub fn is_shown(p: Poll, w: u32) -> bool
    ensures { result ≡ shown p w }
{
    match p {
        Poll::Mode(m, _) => CanControl(w).opmod() == m,
        Poll::Pll => OscillatorControl(w).pllrdy(),
    }
}

// Where the last poll did not show it.
pub fn late(p: Poll) -> Refusal
    ensures { result ≡ late_of p }
{
    match p {
        Poll::Mode(_, r) => r,
        Poll::Pll => Refusal::PllNotReady,
    }
}

// The word of an echo after which `left` bits are left.
pub fn echo_word(left: u8) -> u32
    ensures { result ≡ echo_word left }
{
    if left < 32 {
        1 << (31 - left as u32)
    } else {
        1
    }
}

pub fn is_there(item: Item) -> bool
    ensures { result ≡ is_there item }
{
    !matches!(item, Item::Nothing)
}
