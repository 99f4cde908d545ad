// A call, run against the modelled chip as its @ lines say.
#![tactic(auto)]

use acts::Chip;
use classes::Seen;
use driver::{Answer, Call, Next};
use lines::Writer;
use model::Heard;
use script::Note;
use spoken::{Arguments, CallName};

// What the @ lines say of one exchange: nothing, so many bytes given instead of what the chip answers, or that it fails.
#[derive(Clone, Copy)]
enum Told {
    Nothing,
    Given(usize),
    Fails,
}

// A call on the chip: its @ lines, each ended by a newline; what a RAM write sends; how many bytes a RAM read asks for.
#[derive(Drop)]
struct Stage<'c, 'a, 'o> {
    chip: &'c mut Chip,
    notes: &'a [u8],
    lent: &'a [u8],
    read: Option<usize>,
    // How many exchanges were made, and how many bytes of `rx` came last.
    made: u64,
    got: usize,
    rx: [u8; 32768],
    out: Writer<'o>,
}

impl Stage<'_, '_, '_> {
    // Of two lines that give an answer the last holds; an exchange that fails is given none.
    fn noted(&mut self, told: Told, note: &[u8]) -> Told {
        let mut lent = [0u8; 32768];
        let mut a = Arguments::new(&mut lent);
        match script::note_of(note, &mut a) {
            Ok(Note::Fail) => Told::Fails,
            Ok(Note::Answer) => match (told, text::bytes(text::word(note, 2), &mut self.rx)) {
                (Told::Nothing | Told::Given(_), Some(n)) => Told::Given(n),
                _ => told,
            },
            Ok(Note::Bus(step)) => {
                self.chip.bus_step(step, text::rest(note, 1), &a);
                told
            }
            Err(_) => told,
        }
    }

    // What the @ lines say of the exchange that is made: bus steps are done in the order written.
    fn told(&mut self) -> Told {
        let mut told = Told::Nothing;
        let notes = self.notes;
        for note in notes.split(|b| *b == b'\n') {
            if script::exchange_of(note) == Some(self.made) {
                told = self.noted(told, note);
            }
        }
        told
    }

    fn failed(&mut self) -> (Answer, usize) {
        acts::write_failed(self.chip.to.stdout);
        self.got = 0;
        (Answer::Failed, 0)
    }

    fn received(&mut self, heard: Heard, n: usize) -> (Answer, usize) {
        let stdout = self.chip.to.stdout;
        let rx = text::front(&self.rx, n);
        let got = rx.len();
        acts::write_received(stdout, heard, rx, &mut self.out);
        self.got = got;
        (Answer::Exchanged, got)
    }

    // An exchange in which other bytes are given, so many of them: those of the chip are not seen.
    fn answered(&mut self, sent: &[u8], want: usize, given: usize) -> (Answer, usize) {
        let mut unseen = [0u8; 2048];
        let x = model::exchange(self.chip.model, sent, want, &mut unseen);
        self.chip.model = x.model;
        self.received(x.heard, given)
    }

    fn carried(&mut self, sent: &[u8], want: usize) -> (Answer, usize) {
        let x = model::exchange(self.chip.model, sent, want, &mut self.rx);
        self.chip.model = x.model;
        match x.heard {
            Heard::Failed => self.failed(),
            heard => self.received(heard, acts::received(heard, want)),
        }
    }

    // The exchange of these bytes. What was given goes before what came.
    fn exchange(&mut self, sent: &[u8], want: usize) -> (Answer, usize) {
        self.made = self.made.saturating_add(1);
        let told = self.told();
        self.chip.to.write_line(self.out.text());
        match told {
            Told::Fails => self.failed(),
            Told::Given(n) => self.answered(sent, want, n),
            Told::Nothing => self.carried(sent, want),
        }
    }

    // What the call does now, done and written: what it is answered, and with how many bytes; nothing once it is over.
    fn turn(&mut self, call: Call) -> Option<(Answer, usize)> {
        let mut tx = [0u8; 4200];
        let (read, lent, got) = (self.read, self.lent, self.got);
        self.out.clear();
        port::put_line(call, read, lent, text::front(&self.rx, got), &mut self.out);
        match driver::next(call, self.lent, &mut tx) {
            Next::Transfer { n, want } => Some(self.exchange(text::front(&tx, n), want)),
            Next::Wait => {
                self.chip.to.write_line(self.out.text());
                Some((Answer::Waited, 0))
            }
            _ => {
                self.chip.to.write_line(self.out.text());
                None
            }
        }
    }

    // A call, to its end. No call asks so often that the turns run out.
    fn through(&mut self, start: Call) -> Call {
        let mut call = start;
        for _ in 0..u64::MAX {
            let Some((answer, n)) = self.turn(call) else {
                return call;
            };
            call = driver::answer(call, answer, text::front(&self.rx, n));
        }
        call
    }
}

fn through<'a>(
    chip: &mut Chip,
    name: CallName,
    a: &'a Arguments<'_>,
    place: usize,
    notes: &'a [u8],
) -> Call {
    let mut buffer = io::large_buffer();
    let out = Writer::new(&mut buffer);
    let lent = a.bytes();
    let mut stage = Stage {
        chip,
        notes,
        lent,
        read: Seen::new(name, a).read(),
        made: 0,
        got: 0,
        rx: [0u8; 32768],
        out,
    };
    stage.through(starts::start(name, a, place))
}

// A call by its line, with its @ lines. A scrub starts at the place, which is afterwards the next one's: no other call moves it.
pub fn run(chip: &mut Chip, line: &[u8], notes: &[u8], place: &mut usize) {
    let mut lent = [0u8; 32768];
    let mut a = Arguments::new(&mut lent);
    chip.to.write_line(line);
    let Ok(name) = spoken::understood(line, &mut a) else {
        return;
    };
    let call = through(chip, name, &a, *place, notes);
    chip.to.write(b"\n");
    if name == CallName::Scrub {
        *place = driver::scrubber(call).place;
    }
}
