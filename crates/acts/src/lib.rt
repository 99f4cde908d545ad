// What stands between calls: bus steps, raw exchanges, what a FIFO or the transmit queue holds, a new chip. Each is done and written.
#![tactic(auto)]

ghost use Rattle.std.specs.Prelude.{◌≡◌, ◌≤◌, replicate};
ghost use Rattle.state.specs.Model.{reset};

use bus::{Arrival, Sent, Undelivered, Unsent};
use lines::Writer;
use message::{Frame, Undecoded};
use model::Heard;
use output::Streams;
use script::{Between, Bus};
use spi::Refusal;
use spoken::Arguments;
use state::Model;
use std::rt::Stdout;

// The modelled chip, and where it is written what becomes of it.
#[derive(Clone, Copy)]
pub struct Chip {
    pub to: Streams,
    pub model: Model,
}

// The DLC that a payload's length has; 16, which is refused by the same number, where it has none.
fn dlc_for(n: usize, fdf: bool) -> u32 {
    header::dlc_for_len(n, fdf).map_or(16, |d| d.min(16) as u32)
}

// A frame's words are the arguments from k on; its DLC is among them, where the line has it, and otherwise it is the one that its
// payload's length has.
fn arriving<'a>(a: &'a Arguments<'_>, k: usize, coded: bool) -> Arrival<'a>
    requires { k ≤ 1 }
{
    let header = starts::header_of(a.number(k), a.number(k + 1));
    let payload = a.payload(k + 3);
    let dlc = if coded {
        a.word(k + 4)
    } else {
        dlc_for(payload.len(), header.fdf)
    };
    Arrival {
        header,
        dlc,
        time: a.word(k + 2),
        payload,
    }
}

fn put_sent(out: &mut Writer<'_>, sent: Result<Frame, Unsent>) {
    match sent {
        Ok(f) => out.frame(true, f),
        Err(Unsent::NoFrame) => out.put(b"no frame"),
        Err(Unsent::Nothing) => out.put(b"nothing sent"),
        Err(Unsent::Refused(r)) => out.refusal(r),
    }
}

fn put_delivery(out: &mut Writer<'_>, delivery: Result<(), Undelivered>) {
    match delivery {
        Ok(()) => out.put(b"delivered"),
        Err(Undelivered::Refused(r)) => out.refusal(r),
        Err(Undelivered::Configuration) => out.put(b"turned down configuration"),
        Err(Undelivered::NotReceiving) => out.put(b"turned down not receiving"),
        Err(Undelivered::TooLong) => out.put(b"turned down too long"),
        Err(Undelivered::Full) => out.put(b"turned down full"),
    }
}

fn put_item(out: &mut Writer<'_>, held: Result<Frame, Undecoded>, sending: bool) {
    out.put(b"+ ");
    match held {
        Ok(f) => out.frame(sending, f),
        Err(_) => out.put(b"no frame"),
    }
}

fn is_sending(m: Model, n: u32) -> bool {
    u8::try_from(n).is_ok_and(|n| ring::sending(state::frozen_at(m, n)))
}

// How many bytes came back of those that were wanted.
pub fn received(heard: Heard, want: usize) -> usize {
    match heard {
        Heard::Received => want,
        _ => 0,
    }
}

// What came back from an exchange that was carried out, and 27 where it asked to leave Configuration and was not granted.
pub fn write_received(stdout: Stdout, heard: Heard, rx: &[u8], out: &mut Writer<'_>) {
    out.clear();
    out.put(b"< ");
    out.bytes(rx);
    output::write_line(stdout, out.text());
    if let Heard::NoLayout = heard {
        output::write_line(stdout, b"* 27");
    }
}

pub fn write_failed(stdout: Stdout) {
    output::write_line(stdout, b"!");
}

impl Chip {
    pub fn new(to: Streams) -> Chip
        ensures { result ≡ record { to = to; model = reset (replicate 2048 0) } }
    {
        Chip {
            to,
            model: state::reset([0u8; 2048]),
        }
    }

    // A bus step's words, and what came of it.
    fn answered(&self, words: &[u8], answer: &[u8]) {
        self.to.write(b"bus ");
        self.to.write(words);
        self.to.write(b" = ");
        self.to.write_line(answer);
    }

    fn sent(&mut self, s: Sent, words: &[u8]) {
        let mut buffer = [0u8; 256];
        let mut out = Writer::new(&mut buffer);
        put_sent(&mut out, s.sent);
        self.answered(words, out.text());
        self.model = s.model;
    }

    fn delivered(&mut self, n: u32, f: Arrival<'_>, words: &[u8]) {
        let mut buffer = [0u8; 64];
        let mut out = Writer::new(&mut buffer);
        let d = bus::deliver(self.model, n, f);
        put_delivery(&mut out, d.delivery);
        self.answered(words, out.text());
        self.model = d.model;
    }

    // Behind `delivered` stand the FIFO that has the frame now, and the filter that took it.
    fn sorted(&mut self, f: Arrival<'_>, words: &[u8]) {
        let mut buffer = [0u8; 64];
        let mut out = Writer::new(&mut buffer);
        let s = bus::sort(self.model, f);
        put_delivery(&mut out, s.delivery);
        if s.delivery.is_ok() {
            out.byte(b' ');
            out.decimal(s.fifo as u64);
            out.put(b" filter ");
            out.decimal(s.filter as u64);
        }
        self.answered(words, out.text());
        self.model = s.model;
    }

    // A bus step, by its words and what they say.
    pub fn bus_step(&mut self, step: Bus, words: &[u8], a: &Arguments<'_>) {
        match step {
            Bus::Send => self.sent(bus::send(self.model, a.word(0)), words),
            Bus::SendQueue => self.sent(bus::send_queue(self.model), words),
            Bus::Deliver { coded } => self.delivered(a.word(0), arriving(a, 1, coded), words),
            Bus::Sort { coded } => self.sorted(arriving(a, 0, coded), words),
        }
    }

    fn raw(&mut self, sent: &[u8], want: usize) {
        let mut buffer = io::large_buffer();
        let mut out = Writer::new(&mut buffer);
        out.exchange(sent, want);
        self.to.write_line(out.text());
        let mut rx = [0u8; 2048];
        let x = model::exchange(self.model, sent, want, &mut rx);
        match x.heard {
            Heard::Failed => write_failed(self.to.stdout),
            heard => write_received(
                self.to.stdout,
                heard,
                text::front(&rx, received(heard, want)),
                &mut out,
            ),
        }
        self.model = x.model;
    }

    fn item(&self, held: Result<Frame, Undecoded>, sending: bool) {
        let mut buffer = [0u8; 256];
        let mut out = Writer::new(&mut buffer);
        put_item(&mut out, held, sending);
        self.to.write_line(out.text());
    }

    // A FIFO that there is not holds nothing.
    fn held(&self, n: u32, words: &[u8]) {
        let mut buffer = [0u8; 64];
        let mut out = Writer::new(&mut buffer);
        let count = bus::held_len(self.model, n);
        if fifo::is_fifo(n) {
            out.decimal(count as u64);
        } else {
            out.refusal(Refusal::BadNumber);
        }
        self.to.write(words);
        self.to.write(b" ");
        self.to.write_line(out.text());
        let sending = is_sending(self.model, n);
        for k in 0..count {
            self.item(bus::held_at(self.model, n, k), sending);
        }
    }

    fn held_queue(&self, words: &[u8]) {
        let m = self.model;
        let count = (0..32).filter(|k| bus::queue_holds(m, *k)).count();
        self.to.write(words);
        self.to.write(b" ");
        self.to.number(count as u64);
        self.to.write(b"\n");
        for k in 0..32 {
            if bus::queue_holds(m, k) {
                self.item(bus::queue_item(m, k), true);
            }
        }
    }

    // A line between calls, with the blank line behind it.
    pub fn between(&mut self, step: Between, words: &[u8], a: &Arguments<'_>) {
        match step {
            Between::Bus(step) => self.bus_step(step, words, a),
            Between::Raw => self.raw(a.payload(0), a.number(1) as usize),
            Between::Held => self.held(a.word(0), words),
            Between::HeldQueue => self.held_queue(words),
            Between::New => {
                self.to.write_line(words);
                *self = Chip::new(self.to);
            }
        }
        self.to.write(b"\n");
    }
}
