// The changes that configure a FIFO, the transmit queue and a filter: the bits that they set, and the change of a register to these
// bits, where the bits that are kept are all but those of its fields. And the change that requests a transmission.
ghost use Rattle.std.specs.Prelude.{◌≡◌, true, ◌-◌, ◌^◌, ◌<◌, ◌≤◌, [], ◌∷◌};
ghost use Rattle.header.specs.Header.{top_id};
ghost use Rattle.field.specs.Field.{Fits};
ghost use Rattle.field.specs.Settings.{◌:=◌, fields_of, settings};
ghost use Rattle.fifo.specs.Control.{CiFIFOCON, TXREQ, TXPRI, TXAT, FSIZE, PLSIZE};
ghost use Rattle.plan.specs.Change.{change_of, cleared};
ghost use Rattle.areas.specs.Areas.{direction_settings, direction_fits, fifo_fits, fifo_change, enable_change, queue_change, queue_to, queue_fits, off_change, on_change, on_to, extended_only, one_kind, object_settings, object_to, mask_settings, mask_to, is_identifier, filter_check};

use crate::{
    FifoConfiguration, FifoMode, FilterConfiguration, FilterMode, Identifier, RxFifo, TxFifo,
    TxQueueConfiguration,
};
use fifo::{ControlWord, FifoControl, TxQueueControl, is_fifo};
use filter::{FilterControl, FilterMask, FilterObject};
use header::{eid_of, sid_of, top_id};
use plan::{Change, change_at, change_of};
use spi::Refusal;

fn transmit_fits(t: TxFifo) -> bool
    ensures { result ≡ direction_fits (FifoMode.Transmit t) }
{
    t.txpri < 32 && t.txat < 4
}

fn direction_fits(mode: FifoMode) -> bool
    ensures { result ≡ direction_fits mode }
{
    match mode {
        FifoMode::Transmit(t) => transmit_fits(t),
        FifoMode::Receive(_) => true,
    }
}

#[tactic(auto, unfolding(crate::specs::Areas::fifo_fits))]
pub fn fifo_fits(c: FifoConfiguration) -> bool
    ensures { result ≡ fifo_fits c }
{
    1 <= c.size && c.plsize < 8 && direction_fits(c.mode)
}

fn with_transmit(control: FifoControl, t: TxFifo) -> FifoControl
    requires { Fits TXPRI t.txpri × Fits TXAT t.txat }
    ensures { result.0 ≡ settings (direction_settings (FifoMode.Transmit t)) control.0 }
{
    control
        .with_txen(true)
        .with_txpri(t.txpri)
        .with_txat(t.txat)
        .with_rtren(t.rtren)
        .with_txatie(t.txatie)
        .with_tferffie(t.empty)
        .with_tfhrfhie(t.half)
        .with_tfnrfnie(t.notfull)
}

fn with_receive(control: FifoControl, f: RxFifo) -> FifoControl
    ensures { result.0 ≡ settings (direction_settings (FifoMode.Receive f)) control.0 }
{
    control
        .with_txen(false)
        .with_rxtsen(f.rxtsen)
        .with_rxovie(f.rxovie)
        .with_tferffie(f.full)
        .with_tfhrfhie(f.half)
        .with_tfnrfnie(f.notempty)
}

#[tactic(auto, using(crate::proofs::Tests::transmit_told))]
fn with_direction(control: FifoControl, mode: FifoMode) -> FifoControl
    requires { direction_fits mode ≡ true }
    ensures { result.0 ≡ settings (direction_settings mode) control.0 }
{
    match mode {
        FifoMode::Transmit(t) => with_transmit(control, t),
        FifoMode::Receive(f) => with_receive(control, f),
    }
}

// Every bit but the fields that are set.
fn fifo_keep(mode: FifoMode) -> FifoControl
    ensures { result.0 ≡ cleared (FSIZE ∷ PLSIZE ∷ fields_of (direction_settings mode)) (2 ^ 32 - 1) }
{
    let kept = FifoControl(0xFFFF_FFFF)
        .with_fsize(0)
        .with_plsize(0)
        .with_txen(false);
    match mode {
        FifoMode::Transmit(_) => kept
            .with_txpri(0)
            .with_txat(0)
            .with_rtren(false)
            .with_txatie(false)
            .with_tferffie(false)
            .with_tfhrfhie(false)
            .with_tfnrfnie(false),
        FifoMode::Receive(_) => kept
            .with_rxtsen(false)
            .with_rxovie(false)
            .with_tferffie(false)
            .with_tfhrfhie(false)
            .with_tfnrfnie(false),
    }
}

#[tactic(auto, using(crate::proofs::Tests::fifo_told))]
pub fn fifo_change(n: u8, c: FifoConfiguration) -> Change
    requires { fifo_fits c ≡ true }
    ensures { result ≡ fifo_change n c }
{
    let sized = FifoControl(0).with_fifo_size(c.size).with_plsize(c.plsize);
    change_at(n, fifo_keep(c.mode), with_direction(sized, c.mode))
}

pub fn enable_change(on: bool) -> Change
    ensures { result ≡ enable_change on }
{
    changes::txqen_change(on)
}

// The same is refused as of a FIFO that sends.
#[tactic(auto, unfolding(crate::specs::Areas::fifo_fits, crate::specs::Areas::queue_fits))]
pub fn queue_fits(c: TxQueueConfiguration) -> bool
    ensures { result ≡ queue_fits c }
{
    fifo_fits(FifoConfiguration::from(c))
}

#[tactic(auto, using(crate::proofs::Tests::queue_told))]
pub fn queue_bits(c: TxQueueConfiguration) -> u32
    requires { queue_fits c ≡ true }
    ensures { result ≡ (queue_change c).set }
{
    TxQueueControl(0)
        .with_txat(c.txat)
        .with_txpri(c.txpri)
        .with_fifo_size(c.size)
        .with_plsize(c.plsize)
        .with_txatie(c.txatie)
        .with_txqeie(c.empty)
        .with_txqnie(c.notfull)
        .0
}

pub fn queue_change(bits: u32) -> Change
    ensures { result ≡ queue_to bits }
{
    change_of(
        TxQueueControl(0xFFFF_FFFF)
            .with_txat(0)
            .with_txpri(0)
            .with_fsize(0)
            .with_plsize(0)
            .with_txatie(false)
            .with_txqeie(false)
            .with_txqnie(false),
        TxQueueControl(bits),
    )
}

// The FIFO is to send what it holds.
pub fn request_change(n: u8) -> Change
    ensures { result ≡ change_of (CiFIFOCON.address n) (TXREQ := 1 ∷ []) }
{
    change_at(
        n,
        FifoControl(0xFFFF_FFFF).with_txreq(false),
        FifoControl(0).with_txreq(true),
    )
}

pub fn off_change(f: u8) -> Change
    ensures { result ≡ off_change f }
{
    change_at(
        f / 4,
        FilterControl(0xFFFF_FFFF).with_enabled(f, false),
        FilterControl(0).with_enabled(f, false),
    )
}

pub fn on_bits(f: u8, fifo: u32) -> u32
    requires { fifo < 32 }
    ensures { result ≡ (on_change f fifo).set }
{
    FilterControl(0)
        .with_target(f, fifo)
        .with_enabled(f, true)
        .0
}

pub fn on_change(f: u8, bits: u32) -> Change
    ensures { result ≡ on_to f bits }
{
    change_at(
        f / 4,
        FilterControl(0xFFFF_FFFF)
            .with_target(f, 0)
            .with_enabled(f, false),
        FilterControl(bits),
    )
}

fn extended_only(mode: FilterMode) -> bool
    ensures { result ≡ extended_only mode }
{
    matches!(mode, FilterMode::Extended)
}

fn one_kind(mode: FilterMode) -> bool
    ensures { result ≡ one_kind mode }
{
    !matches!(mode, FilterMode::Both)
}

fn is_identifier(i: Identifier) -> bool
    ensures { result ≡ is_identifier i }
{
    i.id <= top_id(i.extended)
}

pub fn object_bits(i: Identifier, mode: FilterMode) -> u32
    requires { i.id ≤ top_id i.extended }
    ensures { result ≡ settings (object_settings i mode) 0 }
{
    FilterObject(0)
        .with_sid(sid_of(i.extended, i.id))
        .with_eid(eid_of(i.extended, i.id))
        .with_exide(extended_only(mode))
        .0
}

pub fn object_change(f: u8, bits: u32) -> Change
    ensures { result ≡ object_to f bits }
{
    change_at(
        f,
        FilterObject(0xFFFF_FFFF)
            .with_sid(0)
            .with_eid(0)
            .with_exide(false),
        FilterObject(bits),
    )
}

pub fn mask_bits(i: Identifier, mode: FilterMode) -> u32
    requires { i.id ≤ top_id i.extended }
    ensures { result ≡ settings (mask_settings i mode) 0 }
{
    FilterMask(0)
        .with_msid(sid_of(i.extended, i.id))
        .with_meid(eid_of(i.extended, i.id))
        .with_mide(one_kind(mode))
        .0
}

pub fn mask_change(f: u8, bits: u32) -> Change
    ensures { result ≡ mask_to f bits }
{
    change_at(
        f,
        FilterMask(0xFFFF_FFFF)
            .with_msid(0)
            .with_meid(0)
            .with_mide(false),
        FilterMask(bits),
    )
}

// 20 before 21.
#[tactic(auto, unfolding(crate::specs::Areas::filter_check))]
pub fn filter_check(f: u32, c: FilterConfiguration) -> Result<(), Refusal>
    ensures { result ≡ filter_check f c }
{
    if !(f < 32 && is_fifo(c.fifo)) {
        return Err(Refusal::BadNumber);
    }
    if !(is_identifier(c.object) && is_identifier(c.mask)) {
        return Err(Refusal::BadIdentifier);
    }
    Ok(())
}
