// Which cases of a transcript lie outside what the port and the Rust can be compared in: told from the call, the answers and the
// result that are written there.
#![tactic(auto)]

ghost use Rattle.std.specs.Prelude.{◌≡◌, ◌≢◌, ◌+◌, ◌≤◌, false, get_or, min, IsFalse};
ghost use Rattle.classes.specs.Seen.{IsRead};

use spoken::{Arguments, CallName};

mod tests;

pub use tests::{is_beyond, is_cut, is_high, is_last, is_long};

// Why a case is not compared, in the order in which it is told.
#[derive(Clone, Copy, PartialEq, Eq, Debug)]
pub enum Class {
    BadSetting,
    BadUserAddress,
    // The Rust reads a payload that is longer than the slot.
    BeyondSlot,
    // The Rust refuses a part that ends with the RAM.
    LastByte,
    // The Rust leaves out TDCO's top bit.
    Tdco,
    // The Rust cuts a length to 32 bits.
    Length,
    // A header field that documents 01 and 02 do not carry: SID11.
    Absent,
}

// What was seen of a case so far. Of the calls on RAM `address` and `size` are the arguments, of the pushes and transmit `size` is the
// payload's, of the two calls on bit timing it is TDCO. `asked` counts the exchanges; the others are of their answers: whether CiTDC's
// word makes a difference, the user address word, a header's second word; of the control word behind it whether it means fewer bytes
// than the header, and whether a timestamp follows.
#[derive(Clone, Copy)]
pub struct Seen {
    pub name: CallName,
    pub wide: bool,
    pub address: u32,
    pub size: u64,
    pub asked: u32,
    pub delay: bool,
    pub cut: bool,
    pub user: u32,
    pub second: u32,
    pub long: bool,
    pub stamped: bool,
}

// Whether a setting is refused (24) that the Rust takes.
fn is_wide(name: CallName, a: &Arguments<'_>) -> bool {
    match name {
        CallName::SetOpMode => 7 < a.number(0),
        CallName::ConfigureTxFifo => a.number(1) == 0 || 31 < a.number(4),
        CallName::ConfigureRxFifo => a.number(1) == 0,
        CallName::ConfigureTxQueue => a.number(0) == 0 || 31 < a.number(2),
        CallName::Push | CallName::Transmit => 0x7F_FFFF < a.number(3),
        CallName::QueuePush | CallName::QueuePushUnchecked => 0x7F_FFFF < a.number(2),
        _ => false,
    }
}

fn size_of(name: CallName, a: &Arguments<'_>) -> u64 {
    match name {
        CallName::ReadRam | CallName::WriteRam => a.number(1),
        CallName::ConfigureBitTiming => a.number(8),
        CallName::Configure => a.number(14),
        CallName::Push | CallName::Transmit => a.number(4),
        CallName::QueuePush | CallName::QueuePushUnchecked => a.number(3),
        _ => 0,
    }
}

// The calls that some class is told of.
#[derive(Clone, Copy, PartialEq, Eq, Debug)]
enum Kind {
    Ram,
    Timing,
    Push,
    Fetch,
    Other,
}

fn kind_of(name: CallName) -> Kind {
    match name {
        CallName::ReadRam | CallName::WriteRam => Kind::Ram,
        CallName::ConfigureBitTiming | CallName::Configure => Kind::Timing,
        CallName::Push | CallName::Transmit | CallName::QueuePush | CallName::QueuePushUnchecked =>
            Kind::Push,
        CallName::Peek | CallName::Get => Kind::Fetch,
        _ => Kind::Other,
    }
}

// The word at a place, 0 where there is none.
fn word_at(rx: &[u8], start: usize) -> u32 {
    match rx.get(start..) {
        Some([a, b, c, d, ..]) => u32::from_le_bytes([*a, *b, *c, *d]),
        _ => 0,
    }
}

// Which exchange reads the user address: of a FIFO the third, in the queue's checked push the fourth, in the other the first.
fn user_read(name: CallName) -> u32 {
    match name {
        CallName::QueuePush => 4,
        CallName::QueuePushUnchecked => 1,
        _ => 3,
    }
}

// A part of RAM.
#[derive(Clone, Copy)]
struct Part {
    address: u32,
    size: u64,
}

fn rounded(n: u64) -> u64
    ensures { result ≤ 0x10000 }
{
    n.min(0x1_0000).next_multiple_of(4)
}

fn payload_size(second: u32) -> u64
    ensures { result ≤ 0x10000 }
{
    rounded(header::received_length_of(second) as u64)
}

// The part of so many bytes that is k bytes behind a user address.
fn behind(user: u32, k: u32, size: u64) -> Option<Part> {
    let address = user.checked_add(0x400)?.checked_add(k)?;
    Some(Part { address, size })
}

// Whether a result is `refused 3` with this address.
fn refuses(line: &[u8], address: u32) -> bool {
    text::is(line, 1, b"refused")
        && text::is(line, 2, b"3")
        && text::hex(text::word(line, 3)) == Some(address as u64)
}

impl Seen {
    // A case whose call has these arguments.
    pub fn new(name: CallName, a: &Arguments<'_>) -> Seen
        ensures call { (result.name ≡ name) × (result.address ≡ min (get_or a.now.numbers 0 0) u32.MAX) }
        ensures exchanges { (result.asked ≡ 0) × (result.delay ≡ false) }
        ensures words { (result.user ≡ 0) × (result.second ≡ 0) }
        ensures tests { (result.cut ≡ false) × (result.long ≡ false) × (result.stamped ≡ false) }
    {
        Seen {
            name,
            wide: is_wide(name, a),
            address: a.word(0),
            size: size_of(name, a),
            asked: 0,
            delay: false,
            cut: false,
            user: 0,
            second: 0,
            long: false,
            stamped: false,
        }
    }

    // How many bytes a RAM read asks for.
    pub fn read(self) -> Option<usize>
        ensures { IsRead self result }
    {
        (self.name == CallName::ReadRam && self.size < 0xFFFF_FFFF).then(|| self.size as usize)
    }

    // After an exchange, `> SENT WANT`: CiTDC is read by 300c.
    pub fn ask(&mut self, line: &[u8])
        ensures counted { self.new.asked ≡ min (self.old.asked + 1) u32.MAX }
        ensures others { self.new ≡ record self.old { asked = self.new.asked; delay = self.new.delay } }
    {
        self.asked = self.asked.saturating_add(1);
        self.delay = text::is(line, 1, b"300c") && text::is(line, 2, b"4");
    }

    // After the answer to an exchange.
    pub fn answer(&mut self, rx: &[u8])
        ensures call { (self.new.name ≡ self.old.name) × (self.new.wide ≡ self.old.wide) }
        ensures arguments { (self.new.address ≡ self.old.address) × (self.new.size ≡ self.old.size) }
        ensures exchanges { (self.new.asked ≡ self.old.asked) × (self.new.delay ≡ self.old.delay) }
        ensures cut { IsFalse self.old.delay → self.new.cut ≡ self.old.cut }
        ensures second { self.old.asked ≢ 4 → self.new.second ≡ self.old.second }
        ensures long { self.old.asked ≢ 5 → (self.new.long ≡ self.old.long) × (self.new.stamped ≡ self.old.stamped) }
    {
        if self.delay {
            self.cut = is_cut(self.size, word_at(rx, 0));
        }
        if self.asked == user_read(self.name) {
            self.user = word_at(rx, 0);
        }
        if self.asked == 4 {
            self.second = word_at(rx, 4);
        }
        if self.asked == 5 {
            let w = word_at(rx, 0);
            self.long = is_long(header::received_length_of(self.second), w);
            self.stamped = field::bit(w, 5);
        }
    }

    // The part of a message that would be read after so many exchanges.
    fn fetched(self) -> Option<Part> {
        match self.asked {
            3 => behind(self.user, 0, 8),
            6 => behind(self.user, 12, payload_size(self.second)),
            _ if self.stamped => behind(self.user, 8, 4),
            _ => behind(self.user, 8, payload_size(self.second)),
        }
    }

    // The part of RAM that the call goes on with.
    fn part(self) -> Option<Part> {
        match kind_of(self.name) {
            Kind::Push => behind(self.user, 0, 8 + rounded(self.size)),
            Kind::Fetch => self.fetched(),
            Kind::Ram => Some(Part {
                address: self.address,
                size: self.size,
            }),
            _ => None,
        }
    }

    // What the arguments and the answers alone tell.
    fn refused(self) -> Option<Class> {
        match kind_of(self.name) {
            _ if self.wide => Some(Class::BadSetting),
            Kind::Push | Kind::Fetch if is_high(self.user) => Some(Class::BadUserAddress),
            Kind::Fetch if self.long => Some(Class::BeyondSlot),
            Kind::Timing if self.cut => Some(Class::Tdco),
            _ => None,
        }
    }

    // What a result, `= RESULT`, tells besides.
    fn told(self, line: &[u8]) -> Option<Class> {
        if let Some(p) = self.part() {
            if refuses(line, p.address) && is_last(p.address, p.size) {
                return Some(Class::LastByte);
            }
        }
        match kind_of(self.name) {
            Kind::Ram if is_beyond(self.address, self.size) && !refuses(line, self.address) => {
                Some(Class::Length)
            }
            _ => None,
        }
    }

    // The class of a case with this result, none where it is compared.
    pub fn class(self, line: &[u8]) -> Option<Class> {
        self.refused().or(self.told(line))
    }
}
