// The items of a plan, each worked out from its numbers and the words in the body.
ghost use Rattle.std.specs.Prelude.{◌≡◌, true, ◌≤◌, ◌<◌, eqb, length, get_or, if◌then◌else◌};
ghost use Rattle.field.specs.Field.{flag};
ghost use Rattle.interrupt.specs.Interrupt.{IE};
ghost use Rattle.interrupt.specs.declared.Cause.{Cause};
ghost use Rattle.spi.specs.declared.refusal.Refusal.{Refusal};
ghost use Rattle.plan.specs.declared.item.Poll.{Poll};
ghost use Rattle.plan.specs.declared.item.Item.{Item};
ghost use Rattle.changes.specs.Changes.{when_asked, counter_change, dncnt_to};
ghost use Rattle.areas.specs.Areas.{enable_change, queue_to};
ghost use Rattle.configure.specs.declared.planned.PlanKind.{PlanKind};
ghost use Rattle.configure.specs.Numbers.{word, pll_for, items_for, items_in};
ghost use Rattle.configure.specs.Moves.{Counts, Stored, StoredAll};

use crate::{PlanKind, PlanNumbers};
use chip::OscillatorControl;
use interrupt::{Cause, Interrupt};
use plan::{Item, Poll};
use spi::Refusal;

// A word of the body.
#[tactic(auto, unfolding(crate::specs::Numbers::word))]
fn word(body: &[u8; 76], k: usize) -> u32
    requires { k < 19 }
    ensures { result ≡ word k body.now }
{
    words::le_at(body, 4 * k)
}

#[tactic(auto, using(crate::proofs::Stored::stored))]
pub fn put_word(body: &mut [u8; 76], k: usize, w: u32)
    requires { k < 19 }
    ensures { Stored k w body.old body.new }
{
    let bytes = words::le_bytes(w);
    parts::put_at(body, 4 * k, &bytes);
}

// Three words, one after the other.
pub fn put_words(body: &mut [u8; 76], k: usize, u: u32, v: u32, w: u32)
    requires { k < 17 }
    ensures { StoredAll k u v w body.old body.new }
{
    put_word(body, k, u);
    put_word(body, k + 1, v);
    put_word(body, k + 2, w);
}

#[tactic(auto, unfolding(crate::specs::Numbers::items_for))]
pub fn count_of(c: PlanNumbers) -> u8
    ensures { Counts c result }
{
    match c.kind {
        PlanKind::Nothing => 0,
        PlanKind::One | PlanKind::Io | PlanKind::Verify => 1,
        PlanKind::Mode | PlanKind::Oscillator | PlanKind::Queue => 2,
        PlanKind::Timing => 3,
        PlanKind::Filter => 4,
        PlanKind::Configure => 15,
    }
}

fn pll_poll(bits: u32) -> Item
    ensures { result ≡ pll_for bits }
{
    if OscillatorControl(bits).pllen() {
        Item::Poll(Poll::Pll, 2)
    } else {
        Item::Nothing
    }
}

fn mode_item(c: PlanNumbers, i: u8) -> Item
    ensures { result ≡ (if eqb i 0 then Item.Change c.change else Item.Poll (Poll.Mode c.n Refusal.ChangeOpModeTimeout) 4) }
{
    if i == 0 {
        Item::Change(c.change)
    } else {
        Item::Poll(Poll::Mode(c.n as u32, Refusal::ChangeOpModeTimeout), 4)
    }
}

fn oscillator_item(c: PlanNumbers, i: u8) -> Item
    ensures { result ≡ (if eqb i 0 then Item.Change c.change else pll_for c.change.set) }
{
    if i == 0 {
        Item::Change(c.change)
    } else {
        pll_poll(c.change.set)
    }
}

#[tactic(auto, unfolding(crate::specs::Numbers::items_for))]
fn timing_item(c: PlanNumbers, i: u8, body: &[u8; 76]) -> Item
    requires { i < 3 }
    ensures { result ≡ get_or (items_for PlanKind.Timing c.n c.change body.now) i Item.Nothing }
{
    match i {
        0 => Item::Change(changes::nominal_change(word(body, 0))),
        1 => Item::Change(changes::data_change(word(body, 1))),
        _ => Item::Change(changes::delay_change(word(body, 2))),
    }
}

#[tactic(auto, unfolding(crate::specs::Numbers::items_for))]
fn filter_item(c: PlanNumbers, i: u8, body: &[u8; 76]) -> Item
    requires { i < 4 }
    ensures { result ≡ get_or (items_for PlanKind.Filter c.n c.change body.now) i Item.Nothing }
{
    match i {
        0 => Item::Change(areas::off_change(c.n)),
        1 => Item::Change(areas::object_change(c.n, word(body, 0))),
        2 => Item::Change(areas::mask_change(c.n, word(body, 1))),
        _ => Item::Change(areas::on_change(c.n, word(body, 2))),
    }
}

fn queue_item(i: u8, body: &[u8; 76]) -> Item
    ensures { result ≡ (if eqb i 0 then Item.Change (enable_change true) else Item.Change (queue_to (word 0 body.now))) }
{
    if i == 0 {
        Item::Change(areas::enable_change(true))
    } else {
        Item::Change(areas::queue_change(word(body, 0)))
    }
}

// The counter is turned on where its interrupt is.
fn counter_item(bits: u32) -> Item
    ensures { result ≡ when_asked (flag (IE Cause.Tbc) bits) (Item.Change counter_change) }
{
    if Interrupt(bits).enabled(Cause::Tbc) {
        Item::Change(changes::counter_change())
    } else {
        Item::Nothing
    }
}

fn dncnt_item(bits: u32) -> Item
    ensures { result ≡ (if eqb bits 0 then Item.Nothing else Item.Change (dncnt_to bits)) }
{
    if bits == 0 {
        Item::Nothing
    } else {
        Item::Change(changes::dncnt_change(bits))
    }
}

// Of `configure`: counter, DNCNT, RTXAT, interrupts.
#[tactic(auto, unfolding(crate::specs::Numbers::items_for))]
fn last_item(c: PlanNumbers, i: u8, body: &[u8; 76]) -> Item
    requires { (11 ≤ i) × (i < 15) }
    ensures { result ≡ get_or (items_for PlanKind.Configure c.n c.change body.now) i Item.Nothing }
{
    match i {
        11 => counter_item(word(body, 6)),
        12 => dncnt_item(word(body, 5)),
        13 => Item::Change(changes::rtxat_change()),
        _ => Item::Change(changes::interrupt_change(word(body, 6))),
    }
}

// Bit timing, STEF and TXQEN off, and the last ones.
#[tactic(auto, unfolding(crate::specs::Numbers::items_for))]
fn later_item(c: PlanNumbers, i: u8, body: &[u8; 76]) -> Item
    requires { (6 ≤ i) × (i < 15) }
    ensures { result ≡ get_or (items_for PlanKind.Configure c.n c.change body.now) i Item.Nothing }
{
    match i {
        6 => Item::Change(changes::nominal_change(word(body, 2))),
        7 => Item::Change(changes::data_change(word(body, 3))),
        8 => Item::Change(changes::delay_change(word(body, 4))),
        9 => Item::Change(changes::stef_change()),
        10 => Item::Change(changes::txqen_change(false)),
        _ => last_item(c, i, body),
    }
}

// Configuration mode, the echo, oscillator and IO, and the later ones.
#[tactic(auto, unfolding(crate::specs::Numbers::items_for, field::specs::Field::with_field))]
fn configure_item(c: PlanNumbers, i: u8, body: &[u8; 76]) -> Item
    requires { i < 15 }
    ensures { result ≡ get_or (items_for PlanKind.Configure c.n c.change body.now) i Item.Nothing }
{
    match i {
        0 => Item::Change(changes::mode_change(changes::mode_bits(4))),
        1 => Item::Poll(Poll::Mode(c.n as u32, Refusal::ConfigurationModeTimeout), 4),
        2 => Item::Echo,
        3 => Item::Change(changes::oscillator_change(word(body, 0))),
        4 => pll_poll(word(body, 0)),
        5 => Item::Change(changes::io_change(word(body, 1))),
        _ => later_item(c, i, body),
    }
}

// The item at place i.
#[tactic(auto, using(crate::proofs::Places::only, crate::proofs::Places::two), unfolding(crate::specs::Numbers::items_for))]
pub fn item_of(c: PlanNumbers, i: u8, body: &[u8; 76]) -> Item
    requires { i < length (items_in c body.now) }
    ensures { result ≡ get_or (items_in c body.now) i Item.Nothing }
{
    match c.kind {
        PlanKind::Nothing => Item::Nothing,
        PlanKind::One | PlanKind::Io => Item::Change(c.change),
        PlanKind::Verify => Item::Echo,
        PlanKind::Mode => mode_item(c, i),
        PlanKind::Oscillator => oscillator_item(c, i),
        PlanKind::Timing => timing_item(c, i, body),
        PlanKind::Filter => filter_item(c, i, body),
        PlanKind::Queue => queue_item(i, body),
        PlanKind::Configure => configure_item(c, i, body),
    }
}
