// A benchmark: in each round a message is pushed, requested and sent, and another one is delivered and got, through the driver and the
// modelled chip. Standard input has the number of rounds, on a line. What is written is the number of exchanges, with those that set
// the chip up, and of messages that came out as they went in.
#![tactic(auto)]

use bus::{Arrival, Unsent};
use driver::{Call, Header, Outcome};
use looping::Chip;
use message::Frame;
use output::Streams;
use std::io::Read;

// The chip with its count of exchanges, and how many messages came out as they went in.
#[derive(Clone, Copy)]
struct Rounds {
    chip: Chip,
    good: u64,
}

// The message of a round.
fn header_of(i: u32) -> Header {
    Header {
        extended: false,
        id: i % 0x800,
        rtr: false,
        brs: false,
        fdf: false,
        esi: false,
    }
}

fn payload_of(i: u32) -> [u8; 8] {
    let [a, b, c, d] = words::le_bytes(i);
    [a, b, c, d, d, c, b, a]
}

fn is_ours(h: Header, payload: &[u8], i: u32) -> bool {
    let ours = payload_of(i);
    h.id == i % 0x800 && payload == &ours[..]
}

fn is_sent(sent: Result<Frame, Unsent>, i: u32) -> bool {
    sent.is_ok_and(|f| is_ours(f.header, text::front(&f.payload.bytes, f.payload.len), i))
}

fn is_got(o: Outcome, buf: &[u8], i: u32) -> bool {
    match o {
        Outcome::Message(f) => is_ours(f.header, text::front(buf, f.len as usize), i),
        _ => false,
    }
}

impl Rounds {
    fn run(&mut self, call: Call, buf: &mut [u8]) -> Outcome {
        let mut tx = [0u8; 130];
        let mut rx = [0u8; 128];
        looping::run(&mut self.chip, call, b"", &mut tx, &mut rx, buf)
    }

    // A call that fills no buffer.
    fn made(&mut self, call: Call) {
        let _ = self.run(call, &mut []);
    }

    // One by its line in a script.
    fn made_by(&mut self, line: &[u8]) {
        if let Ok(call) = starts::call_of(line, 0) {
            self.made(call);
        }
    }

    // A chip with FIFO 1 sending and FIFO 2 receiving with timestamps, each of 8 messages of up to 64 bytes.
    fn prepared() -> Rounds {
        let mut rounds = Rounds {
            chip: Chip {
                model: state::reset([0u8; 2048]),
                exchanges: 0,
            },
            good: 0,
        };
        rounds.made_by(b"call configure 0 0 0 0 0 0 0 62 15 15 0 14 3 3 0 0 0 0 0 0");
        rounds.made_by(b"call configure_fifo 1 8 7 tx 0 0 0 0 0 0 0");
        rounds.made_by(b"call configure_fifo 2 8 7 rx 1 0 0 0 0");
        rounds.made_by(b"call set_op_mode 0");
        rounds
    }

    fn count(&mut self, good: bool) {
        self.good = self.good.saturating_add(good as u64);
    }

    // Pushed, requested, sent.
    fn outgoing(&mut self, i: u32) {
        self.made(driver::push(1, header_of(i), i % 0x80_0000, &payload_of(i)));
        self.made(driver::request(1));
        let s = bus::send(self.chip.model, 1);
        self.chip.model = s.model;
        self.count(is_sent(s.sent, i));
    }

    // Delivered, got: a frame that was not delivered is not got either.
    fn incoming(&mut self, i: u32) {
        let payload = payload_of(i);
        let frame = Arrival {
            header: header_of(i),
            dlc: 8,
            time: i,
            payload: &payload,
        };
        let d = bus::deliver(self.chip.model, 2, frame);
        self.chip.model = d.model;
        let mut buf = [0u8; 64];
        let outcome = self.run(driver::get(2, 64), &mut buf);
        self.count(is_got(outcome, &buf, i));
    }
}

fn tell(to: Streams, n: u64, what: &[u8]) {
    to.number(n);
    to.write(what);
}

fn play(to: Streams, n: u32) {
    let mut rounds = Rounds::prepared();
    for i in 0..n {
        rounds.outgoing(i);
        rounds.incoming(i);
    }
    tell(to, n as u64, b" rounds, ");
    tell(to, rounds.chip.exchanges, b" exchanges, ");
    tell(to, rounds.good, b" messages\n");
}

// 0 where it is no number, or too large a one.
fn rounds_of(s: &[u8]) -> u32 {
    text::decimal(s)
        .and_then(|n| u32::try_from(n).ok())
        .unwrap_or(0)
}

fn main(rt: HostRuntime) {
    let to = Streams::new(rt);
    let mut buf = io::buffer();
    let mut input = to.stdin;
    // A read that fails is no input.
    let n = input.read(&mut buf).unwrap_or(0);
    play(to, rounds_of(text::front(&buf, n.saturating_sub(1))));
}
