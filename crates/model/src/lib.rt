// The modelled chip: an exchange of any bytes sent and any number of bytes wanted.
#![tactic(auto)]

ghost use Rattle.std.specs.Prelude.{◌≡◌, ◌++◌, ◌+◌, ◌≤◌, length, drop};
ghost use Rattle.words.specs.Words.{le_bytes};
ghost use Rattle.parts.specs.Parts.{part, put};
ghost use Rattle.crc.specs.Crc.{crc_of};
ghost use Rattle.state.specs.Model.{reset, written};
ghost use Rattle.bank.specs.Registers.{register_written};
ghost use Rattle.model.specs.Exchange.{checked_bytes, done_writing, lent, exchanged_as, filled_by};

use operation::Operation;
use place::Register;
use state::Model;

#[derive(Clone, Copy)]
pub enum Heard {
    // Failed, and nothing changed.
    Failed,
    // Done; as many bytes as were wanted are received.
    Received,
    // Done, but leaving Configuration was not granted: 27. No byte was wanted.
    NoLayout,
}

#[derive(Clone, Copy)]
pub struct Exchanged {
    pub heard: Heard,
    pub model: Model,
}

fn told(heard: Heard, m: Model) -> Exchanged
    ensures { result ≡ record { heard = heard; model = m } }
{
    Exchanged { heard, model: m }
}

fn fresh(m: Model) -> Model
    ensures { result ≡ reset m.ram }
{
    state::reset(m.ram)
}

fn put_word(rx: &mut [u8], w: u32)
    requires { 4 ≤ length rx.old }
    ensures { rx.new ≡ put rx.old 0 (le_bytes w) }
{
    let b = words::le_bytes(w);
    parts::put_at(rx, 0, &b);
}

#[tactic(auto, using(crc::proofs::Laws::of_parts))]
fn crc_of(sent: &[u8], w: u32) -> u16
    ensures { result ≡ crc_of (sent.now ++ le_bytes w) }
{
    let b = words::le_bytes(w);
    crc::update(crc::update(crc::START, sent), &b)
}

fn put_checked(rx: &mut [u8], sent: &[u8], w: u32)
    requires { 6 ≤ length rx.old }
    ensures { rx.new ≡ put rx.old 0 (checked_bytes sent.now w) }
{
    let b = words::be_bytes(crc_of(sent, w));
    put_word(rx, w);
    parts::put_at(rx, 4, &b);
}

fn put_ram(rx: &mut [u8], m: Model, at: usize, want: usize)
    requires { (at + want ≤ 2048) × (want ≤ length rx.old) }
    ensures { rx.new ≡ put rx.old 0 (part m.ram at want) }
{
    parts::put_at(rx, 0, &m.ram[at..at + want]);
}

fn wrote(m: Model, r: Register, w: u32) -> Exchanged
    ensures { result ≡ exchanged_as (done_writing (register_written m r w)) }
{
    let x = bank::registered(m, r, w);
    if x.granted {
        return told(Heard::Received, x.model);
    }
    told(Heard::NoLayout, x.model)
}

fn wrote_ram(m: Model, at: usize, sent: &[u8]) -> Model
    requires { 2 ≤ length sent.now }
    ensures { result ≡ written m at (drop 2 sent.now) }
{
    state::written(m, at, &sent[2..])
}

#[tactic(auto, unfolding(crate::specs::Exchange::lent, crate::specs::Exchange::exchange, crate::specs::Exchange::performed))]
pub fn exchange(m: Model, sent: &[u8], want: usize, rx: &mut [u8]) -> Exchanged
    ensures { (result ≡ exchanged_as (lent rx.old sent.now want m)) × (rx.new ≡ filled_by (lent rx.old sent.now want m).reply rx.old) }
{
    if rx.len() < want {
        return told(Heard::Failed, m);
    }
    match operation::asked(sent, want) {
        Operation::Reset => told(Heard::Received, fresh(m)),
        Operation::Read(r) => {
            put_word(rx, bank::word(m, r));
            told(Heard::Received, m)
        }
        Operation::Checked(r) => {
            put_checked(rx, sent, bank::word(m, r));
            told(Heard::Received, m)
        }
        Operation::Write(r, w) => wrote(m, r, w),
        Operation::ReadRam(a) => {
            put_ram(rx, m, a, want);
            told(Heard::Received, m)
        }
        Operation::WriteRam(a) => told(Heard::Received, wrote_ram(m, a, sent)),
        Operation::None => told(Heard::Failed, m),
    }
}
