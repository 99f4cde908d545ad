// Transcript text, put into a lent buffer from its front on; what does not fit is left out.
#![tactic(auto, using(crate::proofs::Appends::more, crate::proofs::Appends::none))]

ghost use Rattle.std.specs.Prelude.{◌≡◌, ◌-◌, length, take};
ghost use Rattle.lines.specs.Writer.{Appends};

use call::{Found, Outcome, Report, Rewrite};
use header::Header;
use message::Frame;
use spi::Refusal;

// What stands behind a result's words, after a blank.
#[derive(Clone, Copy)]
enum Value {
    Dash,
    Decimal(u64),
    // With so many digits at least.
    Hex(u64, usize),
}

fn digit(d: u8) -> u8 {
    match d {
        0..=9 => b'0' + d,
        10..=15 => b'a' - 10 + d,
        _ => b'?',
    }
}

fn refused_for(r: Refusal) -> Option<Value> {
    match r {
        Refusal::InvalidRamAddress(address) => Some(Value::Hex(address as u64, 1)),
        Refusal::InvalidReadLength(n) => Some(Value::Decimal(n as u64)),
        Refusal::InvalidWriteLength(n) => Some(Value::Decimal(n as u64)),
        _ => None,
    }
}

fn time(stamp: Option<u32>) -> Value {
    match stamp {
        Some(t) => Value::Hex(t as u64, 8),
        None => Value::Dash,
    }
}

// The word that an outcome without a checked word, a message, a report or a refusal is told by.
fn name_of(o: Outcome) -> &'static [u8] {
    match o {
        Outcome::Done => b"ok",
        Outcome::Word(_) => b"word",
        Outcome::Mode(_) => b"mode",
        Outcome::Yes => b"yes",
        Outcome::No => b"no",
        Outcome::Empty => b"none",
        _ => b"running",
    }
}

fn value_of(o: Outcome) -> Option<Value> {
    match o {
        Outcome::Word(w) => Some(Value::Hex(w as u64, 8)),
        Outcome::Mode(m) => Some(Value::Decimal(m as u64)),
        _ => None,
    }
}

// A lent buffer, and how many bytes at its front are put.
#[derive(Drop)]
pub struct Writer<'a> {
    out: &'a mut [u8],
    len: usize,
}

impl<'a> Writer<'a> {
    pub fn new(out: &'a mut [u8]) -> Writer<'a>
        ensures empty { result.len ≡ 0 }
        ensures same_buffer { result.out.ghost_name ≡ out.entry.ghost_name }
        ensures as_it_was { result.out.now ≡ out.old }
    {
        Writer { out, len: 0 }
    }

    pub fn text(&self) -> &[u8]
        ensures { result.now ≡ take self.now.len self.now.out.now }
    {
        text::front(self.out, self.len)
    }

    pub fn clear(&mut self)
        ensures empty { self.new.len ≡ 0 }
        ensures same_buffer { self.new.out.ghost_name ≡ self.old.out.ghost_name }
        ensures as_it_was { self.new.out.now ≡ self.old.out.now }
    {
        self.len = 0;
    }

    // How many bytes more fit.
    pub fn room(&self) -> usize
        ensures { result ≡ length self.now.out.now - self.now.len }
    {
        self.out.len().saturating_sub(self.len)
    }

    #[tactic(auto, unfolding(crate::specs::Writer::Appends))]
    pub fn byte(&mut self, b: u8)
        ensures { Appends self.old self.new }
    {
        if self.len < self.out.len() {
            self.out[self.len] = b;
            self.len += 1;
        }
    }

    pub fn put(&mut self, s: &[u8])
        ensures { Appends self.old self.new }
    {
        for b in s {
            self.byte(*b);
        }
    }

    // Bytes in hex, `-` for none.
    pub fn bytes(&mut self, s: &[u8])
        ensures { Appends self.old self.new }
    {
        if s.is_empty() {
            self.byte(b'-');
        }
        for b in s {
            self.byte(digit(*b / 16));
            self.byte(digit(*b % 16));
        }
    }

    pub fn decimal(&mut self, v: u64)
        ensures { Appends self.old self.new }
    {
        let mut digits = [0u8; 20];
        let k = io::decimal(v, &mut digits);
        self.put(&digits[..k]);
    }

    // With zeros in front up to `width` digits.
    pub fn hex(&mut self, v: u64, width: usize)
        ensures { Appends self.old self.new }
    {
        let mut digits = [0u8; 16];
        let k = io::hex(v, width, &mut digits);
        self.put(&digits[..k]);
    }

    // An exchange: all bytes sent, the number of bytes wanted.
    pub fn exchange(&mut self, sent: &[u8], want: usize)
        ensures { Appends self.old self.new }
    {
        self.put(b"> ");
        self.bytes(sent);
        self.value(Value::Decimal(want as u64));
    }

    fn value(&mut self, v: Value)
        ensures { Appends self.old self.new }
    {
        self.byte(b' ');
        match v {
            Value::Dash => self.byte(b'-'),
            Value::Decimal(n) => self.decimal(n),
            Value::Hex(n, width) => self.hex(n, width),
        }
    }

    pub fn refusal(&mut self, r: Refusal)
        ensures { Appends self.old self.new }
    {
        self.put(b"refused ");
        self.decimal(numbers::number(r) as u64);
        if let Some(v) = refused_for(r) {
            self.value(v);
        }
    }

    fn identifier(&mut self, h: Header)
        ensures { Appends self.old self.new }
    {
        self.put(if h.extended { b"ext" } else { b"std" });
        self.value(Value::Hex(h.id as u64, 1));
    }

    // The letters of the flags that are on, `-` for none.
    fn flags(&mut self, h: Header)
        ensures { Appends self.old self.new }
    {
        if !h.fdf && !h.brs && !h.esi && !h.rtr {
            self.byte(b'-');
        }
        for (on, letter) in [(h.fdf, b'f'), (h.brs, b'b'), (h.esi, b'e'), (h.rtr, b'r')] {
            if on {
                self.byte(letter);
            }
        }
    }

    // What it is, its header with what follows, a timestamp in a message and SEQ in a frame, and its payload.
    fn message(&mut self, what: &[u8], h: Header, v: Value, payload: &[u8])
        ensures { Appends self.old self.new }
    {
        self.put(what);
        self.identifier(h);
        self.byte(b' ');
        self.flags(h);
        self.value(v);
        self.byte(b' ');
        self.bytes(payload);
    }

    // A received message tells its timestamp and, behind its payload, its DLC and the filter that took it.
    fn received(&mut self, h: Header, stamp: Option<u32>, payload: &[u8], dlc: u8, filter: u8)
        ensures { Appends self.old self.new }
    {
        self.message(b"message ", h, time(stamp), payload);
        self.value(Value::Decimal(dlc as u64));
        self.value(Value::Decimal(filter as u64));
    }

    fn found(&mut self, f: Found, buf: &[u8])
        ensures { Appends self.old self.new }
    {
        let payload = text::front(buf, f.len as usize);
        self.received(f.header, f.stamp, payload, f.dlc, f.filter);
    }

    // A message to send, which tells its SEQ, or a received one.
    pub fn frame(&mut self, sending: bool, f: Frame)
        ensures { Appends self.old self.new }
    {
        let p = f.payload;
        let payload = text::front(&p.bytes, p.len);
        if sending {
            self.message(b"frame ", f.header, Value::Decimal(f.seq as u64), payload);
        } else {
            self.received(f.header, f.stamp, payload, f.dlc, f.filter);
        }
    }

    fn plain(&mut self, o: Outcome)
        ensures { Appends self.old self.new }
    {
        self.put(name_of(o));
        if let Some(v) = value_of(o) {
            self.value(v);
        }
    }

    // A checked word, and how many exchanges mismatched before it.
    fn checked(&mut self, what: &[u8], w: u32, mismatches: u8)
        ensures { Appends self.old self.new }
    {
        self.put(what);
        self.value(Value::Hex(w as u64, 8));
        self.value(Value::Decimal(mismatches as u64));
    }

    // What came of a rewrite.
    fn rewritten(&mut self, r: Rewrite)
        ensures { Appends self.old self.new }
    {
        match r {
            Rewrite::None => {}
            Rewrite::Back(w, mismatches) => self.checked(b" back", w, mismatches),
            Rewrite::Unread(why) => {
                self.put(b" unread");
                self.value(Value::Decimal(numbers::number(why) as u64));
            }
        }
    }

    fn addressed(&mut self, what: &[u8], address: u16)
        ensures { Appends self.old self.new }
    {
        self.put(what);
        self.value(Value::Hex(address as u64, 1));
    }

    // What a scrub step reports.
    fn report(&mut self, r: Report)
        ensures { Appends self.old self.new }
    {
        match r {
            Report::Agree {
                address,
                mismatches,
            } => {
                self.addressed(b"agree", address);
                self.value(Value::Decimal(mismatches as u64));
            }
            Report::Differ {
                address,
                read,
                wanted,
                mismatches,
                rewrite,
            } => {
                self.addressed(b"differ", address);
                self.value(Value::Hex(read as u64, 8));
                self.value(Value::Hex(wanted as u64, 8));
                self.value(Value::Decimal(mismatches as u64));
                self.rewritten(rewrite);
            }
            Report::Unread { address, why } => {
                self.addressed(b"unread", address);
                self.value(Value::Decimal(numbers::number(why) as u64));
            }
        }
    }

    // How a call ended. `buf` is what it filled.
    pub fn result(&mut self, o: Outcome, buf: &[u8])
        ensures { Appends self.old self.new }
    {
        match o {
            Outcome::Checked(w, mismatches) => self.checked(b"word", w, mismatches),
            Outcome::Message(f) => self.found(f, buf),
            Outcome::Scrubbed(r) => self.report(r),
            Outcome::Refused(r) => self.refusal(r),
            _ => self.plain(o),
        }
    }

    // What a RAM read ends with.
    pub fn read_result(&mut self, s: &[u8])
        ensures { Appends self.old self.new }
    {
        self.put(b"bytes ");
        self.bytes(s);
    }
}
