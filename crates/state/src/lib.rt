// The modelled chip's state, by value: what only Configuration changes, the registers that hold as written, the FIFOs, the transmit queue,
// the RAM. FIFO n is entry n of an array.
#![tactic(auto)]

ghost use Rattle.std.specs.Prelude.{◌≡◌, ◌≤◌, length, get_or, set, take};
ghost use Rattle.parts.specs.Parts.{put};
ghost use Rattle.ring.specs.Layout.{slot_at};
ghost use Rattle.state.specs.Model.{fixed₀, setup₀, reset, fifo_at, frozen_at, with_fixed, with_setup, with_fifo, with_queue, written};

use bit_timing::{
    DataBitTimeConfiguration, NominalBitTimeConfiguration, TransmitterDelayCompensation,
};
use chip::{IoControl, OscillatorControl};
use configuration::{CanControl, TimeStampControl};
use field::Register;
use fifo::{FifoControl, TxQueueControl};
use filter::{FilterControl, FilterMask, FilterObject};
use interrupt::Interrupt;
use ring::{Fifo, Layout, Queue, Slots};

#[derive(Clone, Copy)]
pub struct Fixed {
    pub configuring: bool,
    // The transmit queue is on.
    pub queue: bool,
    // The control words as they were last written in Configuration; entry 0 is the queue's.
    pub frozen: [u32; 32],
}

impl Fixed {
    // Where slot k of FIFO n begins in RAM; 0 is the queue.
    pub fn slot_at(&self, n: u8, k: u32) -> usize
        requires { k ≤ 510 }
        ensures { (result ≡ slot_at self.now.queue self.now.frozen n k) × (result ≤ 1000000) }
    {
        let layout = Layout {
            queue: self.queue,
            words: &self.frozen,
        };
        layout.slot_at(n, k)
    }
}

#[derive(Clone, Copy)]
pub struct Setup {
    pub con: u32,
    pub osc: u32,
    // CiNBTCFG, CiDBTCFG, CiTDC, CiTSCON, CiINT, IOCON.
    pub plain: [u32; 6],
    // Filter controls, objects and masks.
    pub filter: [u32; 8],
    pub object: [u32; 32],
    pub mask: [u32; 32],
}

#[derive(Clone, Copy)]
pub struct Model {
    pub fixed: Fixed,
    pub setup: Setup,
    pub fifo: [Fifo; 32],
    pub queue: Queue,
    pub ram: [u8; 2048],
}

fn fixed_reset() -> Fixed
    ensures { result ≡ fixed₀ }
{
    let mut frozen = [FifoControl::RESET; 32];
    frozen[0] = TxQueueControl::RESET;
    Fixed {
        configuring: true,
        queue: true,
        frozen,
    }
}

fn setup_reset() -> Setup
    ensures { result ≡ setup₀ }
{
    Setup {
        con: CanControl::RESET,
        osc: OscillatorControl::RESET,
        plain: [
            NominalBitTimeConfiguration::RESET,
            DataBitTimeConfiguration::RESET,
            TransmitterDelayCompensation::RESET,
            TimeStampControl::RESET,
            Interrupt::RESET,
            IoControl::RESET,
        ],
        filter: [FilterControl::RESET; 8],
        object: [FilterObject::RESET; 32],
        mask: [FilterMask::RESET; 32],
    }
}

// After RESET, with this RAM.
#[tactic(auto, unfolding(crate::specs::Model::reset))]
pub fn reset(ram: [u8; 2048]) -> Model
    ensures { result ≡ reset ram }
{
    Model {
        fixed: fixed_reset(),
        setup: setup_reset(),
        fifo: [Fifo::fresh(FifoControl::RESET); 32],
        queue: Queue::fresh(TxQueueControl::RESET),
        ram,
    }
}

// A word of a list, 0 where there is none.
pub fn word_at(words: &[u32], k: usize) -> u32
    ensures { result ≡ get_or words.now k 0 }
{
    words.get(k).copied().unwrap_or(0)
}

// A word of a list set, none where there is none.
pub fn set_word(words: &mut [u32], k: usize, w: u32)
    ensures { words.new ≡ set words.old k w }
{
    if k < words.len() {
        words[k] = w;
    }
}

pub fn fifo_at(m: Model, n: u8) -> Fifo
    ensures { result ≡ fifo_at m n }
{
    m.fifo.get(n as usize).copied().unwrap_or(Fifo::fresh(0))
}

pub fn frozen_at(m: Model, n: u8) -> u32
    ensures { result ≡ frozen_at m n }
{
    word_at(&m.fixed.frozen, n as usize)
}

pub fn with_fixed(m: Model, fixed: Fixed) -> Model
    ensures { result ≡ with_fixed m fixed }
{
    Model { fixed, ..m }
}

pub fn with_setup(m: Model, setup: Setup) -> Model
    ensures { result ≡ with_setup m setup }
{
    Model { setup, ..m }
}

pub fn with_fifo(m: Model, n: u8, f: Fifo) -> Model
    ensures { result ≡ with_fifo m n f }
{
    let mut d = m;
    if n < 32 {
        d.fifo[n as usize] = f;
    }
    d
}

pub fn with_queue(m: Model, q: Queue) -> Model
    ensures { result ≡ with_queue m q }
{
    Model { queue: q, ..m }
}

fn put_bytes(ram: [u8; 2048], at: usize, s: &[u8]) -> [u8; 2048]
    ensures { result ≡ take (length ram) (put ram at s.now) }
{
    if 2048 <= at {
        return ram;
    }
    let mut b = ram;
    let n = s.len().min(2048 - at);
    parts::put_at(&mut b, at, &s[..n]);
    b
}

pub fn written(m: Model, at: usize, s: &[u8]) -> Model
    ensures { result ≡ written m at s.now }
{
    Model {
        ram: put_bytes(m.ram, at, s),
        ..m
    }
}
