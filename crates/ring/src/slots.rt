// What the FIFOs and the transmit queue have alike: a control word, and slots that UINC moves on. `frozen` is the control word as last
// written in Configuration.
ghost use Rattle.std.specs.Prelude.{◌≡◌, ℕ, Bool, true, false, [], ◌∷◌, if◌then◌else◌};
ghost use Rattle.field.specs.Field.{flag, write};
ghost use Rattle.field.specs.Settings.{◌:=◌, settings};
ghost use Rattle.fifo.specs.Control.{UINC, FRESET, TXREQ};
ghost use Rattle.ring.specs.Slots.{commanded};

use fifo::{ControlWord, FifoControl};

pub trait Slots: Copy {
    ghost word_of: { Self → ℕ };

    ghost fresh_of: { ℕ → Self };

    ghost controlled_by: { ℕ → Self → Self };

    ghost increased_by: { Bool → ℕ → Self → Self };

    ghost configured_by: { ℕ → Self → Self };

    ghost commanded_by: { Bool → ℕ → ℕ → Self → Self };

    ghost turned_by: { Bool → Self → Self };

    // The control word as last written.
    fn word(self) -> u32
        ensures { result ≡ word_of self };

    // Empty, as after RESET.
    fn fresh(word: u32) -> Self
        ensures { result ≡ fresh_of word };

    // Another control word.
    fn controlled(self, word: u32) -> Self
        ensures { result ≡ controlled_by word self };

    // UINC, where the slots are on.
    fn increased(self, on: bool, frozen: u32) -> Self
        ensures { result ≡ increased_by on frozen self };

    ghost configures: { (w : ℕ) (s : Self) → configured_by w s ≡ controlled_by (write UINC 0 w) s };

    ghost commands: { (on : Bool) (frozen w : ℕ) (s : Self) → commanded_by on frozen w s ≡ commanded word_of fresh_of controlled_by (increased_by on frozen) w s };

    ghost enters: { (s : Self) → turned_by true s ≡ fresh_of (write TXREQ 0 (word_of s)) };

    ghost leaves: { (s : Self) → turned_by false s ≡ controlled_by (write FRESET 0 (word_of s)) s };
}

pub fn without_txreq(w: u32) -> u32
    ensures { result ≡ write TXREQ 0 w }
{
    FifoControl(w).with_txreq(false).0
}

// What is kept of a control word outside Configuration.
fn kept(w: u32) -> u32
    ensures { result ≡ settings (UINC := 0 ∷ FRESET := 0 ∷ []) w }
{
    FifoControl(w).with_uinc(false).with_freset(false).0
}

fn emptied<S: Slots>(s: S) -> S
    ensures { result ≡ S.fresh_of (write TXREQ 0 (S.word_of s)) }
{
    S::fresh(without_txreq(s.word()))
}

// In Configuration a control word is written.
pub fn configured<S: Slots>(w: u32, s: S) -> S
    ensures { result ≡ S.configured_by w s }
{
    s.controlled(FifoControl(w).with_uinc(false).0)
}

fn increased_if<S: Slots>(uinc: bool, on: bool, frozen: u32, s: S) -> S
    ensures { result ≡ (if uinc then S.increased_by on frozen s else s) }
{
    if uinc { s.increased(on, frozen) } else { s }
}

// Outside it one is written.
pub fn commanded<S: Slots>(on: bool, frozen: u32, w: u32, s: S) -> S
    ensures { result ≡ S.commanded_by on frozen w s }
{
    let uinc = FifoControl(w).uinc();
    let t = increased_if(uinc, on, frozen, s.controlled(kept(w)));
    if FifoControl(w).freset() {
        return emptied(t);
    }
    t
}

// Configuration is entered or left.
pub fn turned<S: Slots>(entering: bool, s: S) -> S
    ensures { result ≡ S.turned_by entering s }
{
    if entering {
        return emptied(s);
    }
    s.controlled(FifoControl(s.word()).with_freset(false).0)
}
