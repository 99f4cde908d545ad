// The change of each register that the mode, oscillator, IO and bit timing calls and `configure` make: the bits that it sets, and the change
// of a register to these bits, where the bits that are kept are all but those of its fields.
ghost use Rattle.std.specs.Prelude.{◌≡◌, ◌&&◌};
ghost use Rattle.field.specs.Field.{Fits};
ghost use Rattle.field.specs.Settings.{settings, AllFit};
ghost use Rattle.configuration.specs.CanControl.{REQOP, DNCNT};
ghost use Rattle.bit_timing.specs.Signed.{Small};
ghost use Rattle.changes.specs.Changes.{fits, all_fit, mode_change, mode_to, oscillator_change, oscillator_to, io_change, io_to, times, nominal_settings, data_settings, timing_fits, nominal_change, nominal_to, data_change, data_to, delay_change, delay_to, stef_change, txqen_to, counter_change, dncnt_change, dncnt_to, rtxat_change, interrupt_change, interrupt_to};

use crate::{
    BitTimeConfiguration, DataBitTime, IoConfiguration, NominalBitTime, OscillatorConfiguration,
    Settings,
};
use bit_timing::{
    BitTime, DataBitTimeConfiguration, NominalBitTimeConfiguration, TransmitterDelayCompensation,
    signed,
};
use chip::{IoControl, OscillatorControl};
use configuration::{CanControl, TimeStampControl};
use field::Single;
use interrupt::{Cause, Interrupt};
use plan::{Change, change_of, keeping};

pub fn mode_bits(m: u32) -> u32
    requires { Fits REQOP m }
    ensures { result ≡ (mode_change m).set }
{
    CanControl(0).with_reqop(m).0
}

pub fn mode_change(bits: u32) -> Change
    ensures { result ≡ mode_to bits }
{
    change_of(CanControl(0xFFFF_FFFF).with_reqop(0), CanControl(bits))
}

pub fn oscillator_bits(o: OscillatorConfiguration) -> u32
    ensures { result ≡ (oscillator_change o).set }
{
    OscillatorControl(0)
        .with_pllen(o.pll)
        .with_sclkdiv(o.divide)
        .with_oscdis(false)
        .0
}

pub fn oscillator_change(bits: u32) -> Change
    ensures { result ≡ oscillator_to bits }
{
    change_of(
        OscillatorControl(0xFFFF_FFFF)
            .with_pllen(false)
            .with_sclkdiv(false)
            .with_oscdis(false),
        OscillatorControl(bits),
    )
}

pub fn io_bits(c: IoConfiguration) -> u32
    ensures { result ≡ (io_change c).set }
{
    IoControl(0)
        .with_xstbyen(c.xstbyen)
        .with_txcanod(c.txcanod)
        .with_sof(c.sof)
        .with_intod(c.intod)
        .0
}

pub fn io_change(bits: u32) -> Change
    ensures { result ≡ io_to bits }
{
    change_of(
        IoControl(0xFFFF_FFFF)
            .with_xstbyen(false)
            .with_txcanod(false)
            .with_sof(false)
            .with_intod(false),
        IoControl(bits),
    )
}

fn nominal_fits(n: NominalBitTime) -> bool
    ensures { result ≡ all_fit (nominal_settings n) }
{
    n.brp < 256 && n.tseg1 < 256 && n.tseg2 < 128 && n.sjw < 128
}

fn data_fits(d: DataBitTime) -> bool
    ensures { result ≡ all_fit (data_settings d) }
{
    d.brp < 256 && d.tseg1 < 32 && d.tseg2 < 16 && d.sjw < 16
}

#[tactic(auto, unfolding(crate::specs::Changes::timing_fits))]
pub fn timing_fits(b: BitTimeConfiguration) -> bool
    ensures { result ≡ timing_fits b }
{
    nominal_fits(b.nominal) && data_fits(b.data) && signed::is_small(b.data.tdco)
}

pub fn settings_fit(s: Settings) -> bool
    ensures { result ≡ (timing_fits s.bittime && fits DNCNT s.dncnt) }
{
    timing_fits(s.bittime) && s.dncnt < 32
}

// The four fields of a bit time.
fn with_times<R: BitTime>(r: R, brp: u32, tseg1: u32, tseg2: u32, sjw: u32) -> R
    requires { AllFit (times R.BITS brp tseg1 tseg2 sjw) }
    ensures { R.word result ≡ settings (times R.BITS brp tseg1 tseg2 sjw) (R.word r) }
{
    r.with_brp(brp)
        .with_tseg1(tseg1)
        .with_tseg2(tseg2)
        .with_sjw(sjw)
}

pub fn nominal_bits(n: NominalBitTime) -> u32
    requires { AllFit (nominal_settings n) }
    ensures { result ≡ (nominal_change n).set }
{
    with_times(
        NominalBitTimeConfiguration(0),
        n.brp,
        n.tseg1,
        n.tseg2,
        n.sjw,
    )
    .0
}

pub fn nominal_change(bits: u32) -> Change
    ensures { result ≡ nominal_to bits }
{
    let kept = with_times(NominalBitTimeConfiguration(0xFFFF_FFFF), 0, 0, 0, 0);
    change_of(kept, NominalBitTimeConfiguration(bits))
}

pub fn data_bits(d: DataBitTime) -> u32
    requires { AllFit (data_settings d) }
    ensures { result ≡ (data_change d).set }
{
    with_times(DataBitTimeConfiguration(0), d.brp, d.tseg1, d.tseg2, d.sjw).0
}

pub fn data_change(bits: u32) -> Change
    ensures { result ≡ data_to bits }
{
    let kept = with_times(DataBitTimeConfiguration(0xFFFF_FFFF), 0, 0, 0, 0);
    change_of(kept, DataBitTimeConfiguration(bits))
}

pub fn delay_bits(d: DataBitTime) -> u32
    requires { Small d.tdco }
    ensures { result ≡ (delay_change d).set }
{
    TransmitterDelayCompensation(0)
        .with_tdcmod(2)
        .with_tdco(d.tdco)
        .with_tdcv(0)
        .0
}

pub fn delay_change(bits: u32) -> Change
    ensures { result ≡ delay_to bits }
{
    change_of(
        TransmitterDelayCompensation(0xFFFF_FFFF)
            .with_tdcmod(0)
            .with_tdco(0)
            .with_tdcv(0),
        TransmitterDelayCompensation(bits),
    )
}

pub fn stef_change() -> Change
    ensures { result ≡ stef_change }
{
    change_of(
        CanControl(0xFFFF_FFFF).with_stef(false),
        CanControl(0).with_stef(false),
    )
}

// The transmit queue on or off.
pub fn txqen_change(on: bool) -> Change
    ensures { result ≡ txqen_to on }
{
    change_of(
        CanControl(0xFFFF_FFFF).with_txqen(false),
        CanControl(0).with_txqen(on),
    )
}

pub fn counter_change() -> Change
    ensures { result ≡ counter_change }
{
    change_of(
        TimeStampControl(0xFFFF_FFFF).with_tbcen(false),
        TimeStampControl(0).with_tbcen(true),
    )
}

pub fn dncnt_bits(n: u32) -> u32
    requires { Fits DNCNT n }
    ensures { result ≡ (dncnt_change n).set }
{
    CanControl(0).with_dncnt(n).0
}

pub fn dncnt_change(bits: u32) -> Change
    ensures { result ≡ dncnt_to bits }
{
    change_of(CanControl(0xFFFF_FFFF).with_dncnt(0), CanControl(bits))
}

pub fn rtxat_change() -> Change
    ensures { result ≡ rtxat_change }
{
    change_of(
        CanControl(0xFFFF_FFFF).with_rtxat(false),
        CanControl(0).with_rtxat(true),
    )
}

// RXIE and TXIE, and what is asked for.
#[tactic(auto, using(crate::proofs::Enables::enables_set))]
pub fn interrupt_bits(s: Settings) -> u32
    ensures { result ≡ (interrupt_change s).set }
{
    Interrupt(0)
        .with_enabled(Cause::Rx, true)
        .with_enabled(Cause::Tx, true)
        .with_enabled(Cause::Ivm, s.canerrors)
        .with_enabled(Cause::Cerr, s.canerrors)
        .with_enabled(Cause::Serr, s.canerrors)
        .with_enabled(Cause::SpiCrc, s.spierror)
        .with_enabled(Cause::Ecc, s.eccerror)
        .with_enabled(Cause::Tbc, s.counter)
        .0
}

// An enable is only turned on.
pub fn interrupt_change(bits: u32) -> Change
    ensures { result ≡ interrupt_to bits }
{
    keeping(Interrupt::address(), bits, bits)
}
