// What is made of a transcript's lines: where its reader stands, which cases agree, and what is written of the others.
#![tactic(auto)]

ghost use Rattle.std.specs.Prelude.{◌≡◌, ◌≢◌, ◌+◌, ◌↔◌, ◌⊎◌, IsTrue, min};
ghost use Rattle.classes.specs.Seen.{IsRead};
ghost use Rattle.judge.specs.Judge.{is_end, Keeps, Stands, IsIdle, Fresh};

mod counts;

use classes::{Class, Seen};
use counts::Counts;
use items::Item;
use lines::Writer;
use output::Streams;
use reading::Line;
use spoken::{Arguments, CallName, Fault};

// Where the transcript's reader stands in a case.
#[derive(Clone, Copy, PartialEq, Eq, Debug)]
enum Phase {
    // No case is open.
    Idle,
    // The call is to do something; it is to be answered; its result was there.
    Turn,
    Reply,
    Over,
    // A line of the case is malformed or out of place, or its call is not understood. The rest of it is passed over up to a blank line or
    // the next case, and it counts as differing.
    Lost,
}

#[derive(Drop)]
pub struct Judge<'a> {
    to: Streams,
    // The line that was read last and the one that the case began with, counted from 1.
    number: u64,
    start: u64,
    phase: Phase,
    seen: Seen,
    class: Option<Class>,
    // The line where the port first did otherwise. It is held until the case's end, since only then it is known whether the case is
    // compared: `note` has behind `-` what the transcript has, and what the port did behind `+`.
    differs: Option<u64>,
    note: Writer<'a>,
    counts: Counts,
    // How many bytes came last.
    got: usize,
}

// Whether both are results of a kind that a transcript may have without its last words: a message's DLC and filter, or the number of
// exchanges that mismatched before a checked read's word, which the Rust does not tell.
fn is_in_part(line: &[u8], out: &[u8]) -> bool {
    let kind = text::word(line, 1);
    text::is(out, 1, kind) && matches!(kind, b"message" | b"word")
}

// What the port does, as far as a line tells it.
fn told_of<'a>(line: &[u8], out: &'a [u8]) -> &'a [u8] {
    let more = text::rest(out, text::count(line)).len();
    if is_in_part(line, out) && 0 < more && more < out.len() {
        return text::front(out, out.len() - more - 1);
    }
    out
}

// Whether a line ends the case before it.
fn is_end(item: Result<Item, Fault>) -> bool
    ensures { result ≡ is_end item }
{
    matches!(item, Ok(Item::Blank | Item::Call | Item::Field | Item::Crc))
}

// Whether it says what the call does.
fn is_done(item: Result<Item, Fault>) -> bool {
    matches!(item, Ok(Item::Sent | Item::Wait | Item::Result))
}

// What a call's line says, where it is one; its words go to the arguments.
pub fn hear(
    item: Result<Item, Fault>,
    line: Line<'_>,
    a: &mut Arguments<'_>,
) -> Option<Result<CallName, Fault>> {
    match item {
        Ok(Item::Call) if line.long => Some(Err(Fault::Long)),
        Ok(Item::Call) => Some(spoken::understood(line.text, a)),
        _ => None,
    }
}

impl<'a> Judge<'a> {
    // Before the first line. Differences are noted in the lent buffer.
    pub fn new(to: Streams, note: &'a mut [u8]) -> Judge<'a>
        ensures idle { IsIdle result }
        ensures fresh { Fresh result }
    {
        Judge {
            to,
            number: 0,
            start: 0,
            phase: Phase::Idle,
            seen: Seen::new(CallName::Reset, &Arguments::new(&mut [])),
            class: None,
            differs: None,
            note: Writer::new(note),
            counts: Counts::new(),
            got: 0,
        }
    }

    pub fn got(&self) -> usize
        ensures { result ≡ self.now.got }
    {
        self.got
    }

    // How many bytes the call reads from RAM.
    pub fn read(&self) -> Option<usize>
        ensures { IsRead self.now.seen result }
    {
        self.seen.read()
    }

    // Whether the port is looked at: the case so far is good, and the line says what the call does, or ends a case that has no result.
    pub fn is_due(&self, item: Result<Item, Fault>) -> bool {
        self.differs.is_none()
            && match self.phase {
                Phase::Turn => is_end(item) || is_done(item),
                Phase::Reply => is_end(item),
                _ => false,
            }
    }

    // Whether the call does what the transcript has so far.
    pub fn is_followed(&self) -> bool
        ensures { IsTrue result ↔ ((self.now.differs ≡ None) × (self.now.phase ≢ Phase.Lost)) }
    {
        self.differs.is_none() && self.phase != Phase::Lost
    }

    // What a line has, and what the port does.
    fn put_note(&mut self, line: &[u8], out: &[u8])
        ensures { Stands self.old self.new }
    {
        self.note.clear();
        self.note.put(b"- ");
        self.note.put(line);
        self.note.put(b"\n+ ");
        self.note.put(out);
        self.note.put(b"\n");
    }

    fn compare(&mut self, line: &[u8], out: &[u8])
        ensures { Keeps self.old self.new × (self.new.phase ≡ self.old.phase) }
    {
        let told = told_of(line, out);
        if line != told {
            self.differs = Some(self.number);
            self.put_note(line, told);
        }
    }

    fn differ(&mut self, at: u64, start: u64)
        ensures { Stands self.old self.new }
    {
        self.to.write(b"line ");
        self.to.number(at);
        self.to.write(b" differs, in the case of line ");
        self.to.number(start);
        self.to.write(b"\n");
        self.to.write(self.note.text());
        self.counts.differ();
    }

    fn count(&mut self)
        ensures { Stands self.old self.new }
    {
        match self.differs {
            Some(at) => self.differ(at, self.start),
            None => self.counts.agree(),
        }
    }

    // A case ends: it is counted, and told where it differs. One without a result differs whatever its class.
    fn close(&mut self)
        ensures { Keeps self.old self.new × IsIdle self.new }
    {
        match self.phase {
            Phase::Idle => {}
            Phase::Lost => self.counts.differ(),
            Phase::Turn | Phase::Reply => self.count(),
            Phase::Over => match self.class {
                Some(class) => self.counts.outside(class),
                None => self.count(),
            },
        }
        self.phase = Phase::Idle;
        self.differs = None;
    }

    fn error(&self, fault: Fault, line: &[u8]) {
        self.to.error(self.number);
        faults::told(self.to.stderr, self.number, fault, line);
    }

    // A line that is a case by itself.
    fn single(&mut self, item: Result<Item, Fault>, line: &[u8])
        ensures { Stands self.old self.new }
    {
        let mut buffer = [0u8; 8192];
        let mut out = Writer::new(&mut buffer);
        if singles::single(item, line, &mut out).is_none() {
            self.error(Fault::Count, line);
            return self.counts.differ();
        }
        if let Some(class) = singles::class(item, line) {
            self.counts.outside(class);
        } else if line == out.text() {
            self.counts.agree();
        } else {
            self.put_note(line, out.text());
            self.differ(self.number, self.number);
        }
    }

    // A line is read: the case that it ends, or that it is, is counted. `out` is what the port does, where it is looked at: where the
    // case ends too early, nothing is held against it.
    pub fn settle(&mut self, item: Result<Item, Fault>, line: &[u8], out: &[u8])
        ensures number { self.new.number ≡ min (self.old.number + 1) u64.MAX }
        ensures ended { IsTrue (is_end item) → IsIdle self.new }
        ensures within { IsTrue (is_end item) ⊎ (self.new.phase ≡ self.old.phase) }
        ensures others { Keeps (record self.old { number = self.new.number }) self.new }
    {
        self.number = self.number.saturating_add(1);
        if self.is_due(item) {
            self.compare(if is_end(item) { b"" } else { line }, out);
        }
        if is_end(item) {
            self.close();
        }
        if singles::is_single(item) {
            self.single(item, line);
        }
    }

    fn lose(&mut self, fault: Fault, line: &[u8]) {
        self.error(fault, line);
        if self.phase != Phase::Idle {
            self.phase = Phase::Lost;
        }
    }

    fn begin(&mut self, heard: Option<Result<CallName, Fault>>, line: &[u8]) {
        self.start = self.number;
        self.phase = Phase::Turn;
        self.class = None;
        self.differs = None;
        if let Some(Err(f)) = heard {
            self.lose(f, line);
        }
    }

    // A line within a case.
    fn follow(&mut self, item: Item, line: &[u8]) {
        match (item, self.phase) {
            (_, Phase::Lost) => {}
            (Item::Sent, Phase::Turn) => self.phase = Phase::Reply,
            (Item::Wait, Phase::Turn) => {}
            (Item::Result, Phase::Turn) => self.phase = Phase::Over,
            (Item::Got(n), Phase::Reply) => {
                self.phase = Phase::Turn;
                self.got = n;
            }
            (Item::Failed, Phase::Reply) => {
                self.phase = Phase::Turn;
                self.got = 0;
            }
            _ => self.lose(Fault::Place, line),
        }
    }

    // What is seen of the case, `a` being the arguments of the call's line and `rx` the bytes that came.
    fn see(
        &mut self,
        item: Result<Item, Fault>,
        heard: Option<Result<CallName, Fault>>,
        line: &[u8],
        a: &Arguments<'_>,
        rx: &[u8],
    ) {
        match (heard, item) {
            (Some(Ok(name)), _) => self.seen = Seen::new(name, a),
            (_, Ok(Item::Sent)) => self.seen.ask(line),
            (_, Ok(Item::Got(n))) => self.seen.answer(text::front(rx, n)),
            _ => {}
        }
    }

    // After a line, `heard` being what it says if it is a call's.
    pub fn after(
        &mut self,
        item: Result<Item, Fault>,
        heard: Option<Result<CallName, Fault>>,
        line: &[u8],
        a: &Arguments<'_>,
        rx: &[u8],
    ) {
        match item {
            Ok(Item::Call) => self.begin(heard, line),
            Ok(Item::Blank | Item::Field | Item::Crc) => {}
            Ok(item) => self.follow(item, line),
            Err(f) => self.lose(f, line),
        }
        if let Ok(Item::Result) = item {
            self.class = self.seen.class(line);
        }
        self.see(item, heard, line, a, rx);
    }

    pub fn tell(&self) {
        self.counts.tell(self.to);
    }
}
