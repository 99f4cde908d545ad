// The calls that set the chip up. A yes or no is 0 or 1; a larger number is refused (24) as any setting that is too wide, after the
// numbers of FIFOs (20).
ghost use Rattle.std.specs.Prelude.{◌≡◌, ◌≤◌, ◌<◌, ltb};
ghost use Rattle.bit_timing.specs.Signed.{is_small, seven_of};
ghost use Rattle.starts.specs.Starts.{IsStarted};

use bit_timing::signed;
use driver::{
    BitTimeConfiguration, Call, DataBitTime, FifoConfiguration, FifoMode, FilterConfiguration,
    FilterMode, Identifier, IoConfiguration, NominalBitTime, OscillatorConfiguration, RxFifo,
    Settings, TxFifo, TxQueueConfiguration,
};
use spoken::Arguments;

// A call that is refused 24: there is no mode 8.
fn unsettable() -> Call
    ensures { IsStarted result }
{
    driver::set_op_mode(8)
}

fn oscillator(a: &Arguments<'_>) -> OscillatorConfiguration {
    OscillatorConfiguration {
        pll: a.is_on(0),
        divide: a.is_on(1),
    }
}

pub fn oscillator_call(a: &Arguments<'_>) -> Call
    ensures { IsStarted result }
{
    if a.are_flags(0, 2) {
        return driver::configure_osc(oscillator(a));
    }
    unsettable()
}

// Four arguments from k on.
fn io(a: &Arguments<'_>, k: usize) -> IoConfiguration
    requires { k ≤ 20 }
{
    IoConfiguration {
        xstbyen: a.is_on(k),
        txcanod: a.is_on(k + 1),
        sof: a.is_on(k + 2),
        intod: a.is_on(k + 3),
    }
}

pub fn io_call(a: &Arguments<'_>) -> Call
    ensures { IsStarted result }
{
    if a.are_flags(0, 4) {
        return driver::configure_io(io(a, 0));
    }
    unsettable()
}

// TDCO stands on a line by its seven bits, 127 for -1. What is wider becomes a number that the call refuses (24).
fn offset(n: u32) -> i32
    ensures { (is_small result ≡ ltb n 128) × (n < 128 → seven_of result ≡ n) }
{
    if n < 128 { signed::number(n) } else { 64 }
}

// Nine arguments from k on.
pub fn bit_time(a: &Arguments<'_>, k: usize) -> BitTimeConfiguration
    requires { k ≤ 20 }
{
    let n = NominalBitTime {
        brp: a.word(k),
        tseg1: a.word(k + 1),
        tseg2: a.word(k + 2),
        sjw: a.word(k + 3),
    };
    let d = DataBitTime {
        brp: a.word(k + 4),
        tseg1: a.word(k + 5),
        tseg2: a.word(k + 6),
        sjw: a.word(k + 7),
        tdco: offset(a.word(k + 8)),
    };
    BitTimeConfiguration {
        nominal: n,
        data: d,
    }
}

// The yes or no of `configure`: arguments 0 to 5, 15 and 17 to 19.
fn configure_flags(a: &Arguments<'_>) -> bool {
    a.are_flags(0, 6) && a.are_flags(15, 16) && a.are_flags(17, 20)
}

pub fn configure_call(a: &Arguments<'_>) -> Call
    ensures { IsStarted result }
{
    let s = Settings {
        oscillator: oscillator(a),
        io: io(a, 2),
        bittime: bit_time(a, 6),
        counter: a.is_on(15),
        dncnt: a.word(16),
        canerrors: a.is_on(17),
        spierror: a.is_on(18),
        eccerror: a.is_on(19),
    };
    if configure_flags(a) {
        return driver::configure(s);
    }
    unsettable()
}

// A number that no field holds, where a yes or no was neither.
fn spoilt(good: bool, n: u32) -> u32 {
    if good { n } else { 0xFFFF_FFFF }
}

// Size, payload size and mode; `good` is whether every yes or no of the mode is one.
fn fifo_call(a: &Arguments<'_>, good: bool, mode: FifoMode) -> Call
    ensures { IsStarted result }
{
    let c = FifoConfiguration {
        size: a.word(1),
        plsize: spoilt(good, a.word(2)),
        mode,
    };
    driver::configure_fifo(a.word(0), c)
}

pub fn tx_call(a: &Arguments<'_>) -> Call
    ensures { IsStarted result }
{
    let t = TxFifo {
        txpri: a.word(4),
        txat: a.word(5),
        rtren: a.is_on(6),
        txatie: a.is_on(7),
        empty: a.is_on(8),
        half: a.is_on(9),
        notfull: a.is_on(10),
    };
    fifo_call(a, a.are_flags(6, 11), FifoMode::Transmit(t))
}

pub fn rx_call(a: &Arguments<'_>) -> Call
    ensures { IsStarted result }
{
    let r = RxFifo {
        rxtsen: a.is_on(4),
        rxovie: a.is_on(5),
        full: a.is_on(6),
        half: a.is_on(7),
        notempty: a.is_on(8),
    };
    fifo_call(a, a.are_flags(4, 9), FifoMode::Receive(r))
}

fn filter_mode(n: u64) -> FilterMode {
    match n {
        0 => FilterMode::Standard,
        1 => FilterMode::Extended,
        _ => FilterMode::Both,
    }
}

// An identifier's number is its own, and text::EXTENDED more for an extended one.
pub fn is_extended(n: u64) -> bool {
    text::EXTENDED <= n
}

pub fn identifier(n: u64) -> u32 {
    (n % text::EXTENDED) as u32
}

fn filter_identifier(n: u64) -> Identifier {
    Identifier {
        extended: is_extended(n),
        id: identifier(n),
    }
}

pub fn filter_call(a: &Arguments<'_>) -> Call
    ensures { IsStarted result }
{
    let c = FilterConfiguration {
        fifo: a.word(1),
        mode: filter_mode(a.number(2)),
        object: filter_identifier(a.number(3)),
        mask: filter_identifier(a.number(4)),
    };
    driver::configure_filter(a.word(0), c)
}

pub fn queue_call(a: &Arguments<'_>) -> Call
    ensures { IsStarted result }
{
    driver::configure_tx_queue(Some(TxQueueConfiguration {
        size: a.word(0),
        plsize: spoilt(a.are_flags(4, 7), a.word(1)),
        txpri: a.word(2),
        txat: a.word(3),
        txatie: a.is_on(4),
        empty: a.is_on(5),
        notfull: a.is_on(6),
    }))
}
