// `configure`: all that a chip is set up with. What is refused is refused before any exchange (24).
ghost use Rattle.std.specs.Prelude.{◌≡◌, true, ◌<◌};
ghost use Rattle.plan.specs.Prepared.{plan_for};
ghost use Rattle.plan.specs.Step.{plan_of};
ghost use Rattle.changes.specs.Changes.{timing_fits};
ghost use Rattle.adjust.specs.Calls.{failed};
ghost use Rattle.configure.specs.Whole.{configure_items, configure_all};
ghost use Rattle.configure.specs.Numbers.{plan_in};

use crate::calls::{plan_with, refused_plan};
use crate::listed::{put_word, put_words};
use crate::{PlanKind, PlanNumbers};
use changes::Settings;
use spi::Refusal;

// The words of all fifteen items.
fn whole(s: Settings, body: &mut [u8; 76]) -> PlanNumbers
    requires { (timing_fits s.bittime ≡ true) × (s.dncnt < 32) }
    ensures { plan_in result body.new ≡ plan_of failed (configure_items s) }
{
    let d = s.bittime.data;
    put_word(body, 0, changes::oscillator_bits(s.oscillator));
    put_word(body, 1, changes::io_bits(s.io));
    put_words(
        body,
        2,
        changes::nominal_bits(s.bittime.nominal),
        changes::data_bits(d),
        changes::delay_bits(d),
    );
    put_word(body, 5, changes::dncnt_bits(s.dncnt));
    put_word(body, 6, changes::interrupt_bits(s));
    let x = changes::mode_change(changes::mode_bits(4));
    plan_with(PlanKind::Configure, 4, x)
}

#[tactic(auto, using(crate::proofs::Begins::one_test), unfolding(crate::specs::Whole::configure_all))]
pub fn configure_all(s: Settings, body: &mut [u8; 76]) -> PlanNumbers
    ensures { plan_in result body.new ≡ plan_for (configure_all s) }
{
    if changes::settings_fit(s) {
        whole(s, body)
    } else {
        refused_plan(Refusal::BadSetting)
    }
}
