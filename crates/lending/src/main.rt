// What no script can show, by the numbers of docs/TRACE.md: buffers that are lent too small, the bytes of a lent buffer that stay, answers
// of another kind than asked or after the end, where a scrubber is before its step ends, and what a register's reader says.
#![tactic(auto)]

use driver::{Answer, Call, Outcome, Refusal};
use field::Numbered;
use fifo::{ControlWord, FifoControl};
use lines::Writer;
use output::Streams;

// How a call that was started ended, with no buffer lent: it is refused, or has still to ask.
fn begun(call: Call) -> Outcome {
    driver::finish(call, b"", &mut [])
}

fn refusal_of(o: Outcome) -> Option<Refusal> {
    match o {
        Outcome::Refused(r) => Some(r),
        _ => None,
    }
}

// A read of 4 bytes into the middle of 8, answered so.
fn read_of(answer: Answer, rx: &[u8]) -> Call {
    driver::answer(driver::read_ram(0x400, 8, 2, 4), answer, rx)
}

// A classic frame of 3 bytes, identifier 0x123, up to the payload's answer.
fn peeked(payload: &[u8]) -> Call {
    let control = [0u8, 0, 0, 0];
    let not_empty = [1u8, 0, 0, 0];
    let header = [0x23u8, 1, 0, 0, 3, 0, 0, 0];
    let mut call = driver::peek(2, 70);
    call = driver::answer(call, Answer::Exchanged, &control);
    call = driver::answer(call, Answer::Exchanged, &not_empty);
    call = driver::answer(call, Answer::Exchanged, &control);
    call = driver::answer(call, Answer::Exchanged, &header);
    call = driver::answer(call, Answer::Exchanged, &control);
    driver::answer(call, Answer::Exchanged, payload)
}

// What is shown, and where.
#[derive(Clone, Copy)]
struct Show {
    to: Streams,
}

impl Show {
    fn tell(self, what: &[u8], refused: Option<Refusal>) {
        self.to.write(what);
        match refused {
            Some(r) => {
                self.to.write(b"refused ");
                self.to.number(driver::number(r) as u64);
                self.to.write(b"\n");
            }
            None => self.to.write(b"not refused\n"),
        }
    }

    fn tell_bytes(self, what: &[u8], s: &[u8]) {
        let mut line = [0u8; 256];
        let mut out = Writer::new(&mut line);
        out.bytes(s);
        self.to.write(what);
        self.to.write_line(out.text());
    }

    fn tell_begun(self, what: &[u8], call: Call) {
        self.tell(what, refusal_of(begun(call)));
    }

    // A RAM read's part of a buffer of 8 bytes.
    fn part(self, what: &[u8], address: u32, place: usize) {
        self.tell_begun(what, driver::read_ram(address, 8, place, 4));
    }

    fn parts(self) {
        self.part(b"S28 read_ram 400, 4 bytes at 4 of 8: ", 0x400, 4);
        self.part(b"S28 read_ram 400, 4 bytes at 5 of 8: ", 0x400, 5);
        self.part(b"S28 read_ram 3ff, 4 bytes at 4 of 8: ", 0x3FF, 4);
        self.part(b"S28 read_ram 3ff, 4 bytes at 5 of 8: ", 0x3FF, 5);
    }

    fn rooms(self) {
        self.tell_begun(b"S28 peek 2 with a buffer of 64: ", driver::peek(2, 64));
        self.tell_begun(b"S28 peek 2 with a buffer of 63: ", driver::peek(2, 63));
        self.tell_begun(b"S28 get 2 with a buffer of 63: ", driver::get(2, 63));
        self.tell_begun(b"S32 get 0 with a buffer of 63: ", driver::get(0, 63));
    }

    // How a call ended, and what it leaves of a buffer of aa.
    fn left(self, what: &[u8], call: Call, rx: &[u8], buf: &mut [u8]) {
        self.tell(what, refusal_of(driver::finish(call, rx, buf)));
        self.tell_bytes(b"  buffer ", buf);
    }

    fn left_of_8(self, what: &[u8], call: Call, rx: &[u8]) {
        self.left(what, call, rx, &mut [0xAAu8; 8]);
    }

    fn reads(self) {
        let rx = [1u8, 2, 3, 4];
        let short = [1u8, 2, 3];
        self.left_of_8(
            b"S46 a read of 4 bytes at 2 of 8: ",
            read_of(Answer::Exchanged, &rx),
            &rx,
        );
        self.left_of_8(b"S30 the same, failed: ", read_of(Answer::Failed, &rx), &rx);
        self.left_of_8(
            b"S26 the same, answered with 3 bytes: ",
            read_of(Answer::Exchanged, &short),
            &short,
        );
        self.left_of_8(
            b"S26 the same, answered as a wait: ",
            read_of(Answer::Waited, &rx),
            &rx,
        );
        let over = read_of(Answer::Exchanged, &rx);
        self.left_of_8(
            b"S26 the same, answered again after its end: ",
            driver::answer(over, Answer::Exchanged, &rx),
            &rx,
        );
    }

    fn wait(self, what: &[u8], answer: Answer, got: usize) {
        self.tell(what, spi::wait_reply(answer, got).err());
    }

    fn waits(self) {
        self.wait(b"S26 a wait, waited out: ", Answer::Waited, 0);
        self.wait(b"S26 the same, with a byte: ", Answer::Waited, 1);
        self.wait(
            b"S26 the same, answered as a failed exchange: ",
            Answer::Failed,
            0,
        );
    }

    fn taken(self, what: &[u8], call: Call) {
        self.left(what, call, b"", &mut [0xAAu8; 70]);
    }

    // How a step stands, and where its scrubber is.
    fn stands(self, what: &[u8], call: Call) {
        let mut line = [0u8; 128];
        let mut out = Writer::new(&mut line);
        out.result(begun(call), b"");
        self.to.write(what);
        self.to.write(out.text());
        self.to.write(b", place ");
        self.to.number(driver::scrubber(call).place as u64);
        self.to.write(b"\n");
    }

    // The word read is 460, with the CRC of be 00 04 60 04 00 00.
    fn scrubs(self) {
        let word = [0x60u8, 4, 0, 0, 0x6C, 0x41];
        // From the second entry on.
        let line = b"call scrub rewrite e04:3000003:ffffffff e00:461:1";
        let first = starts::call_of(line, 1).unwrap_or(driver::reset());
        self.stands(b"R4.4 a scrub, not answered yet: ", first);
        self.stands(
            b"S26 the same, its read answered as a wait: ",
            driver::answer(first, Answer::Waited, b""),
        );
        let second = driver::answer(first, Answer::Exchanged, &word);
        self.stands(
            b"R4.4 the same, read, and its rewrite not answered yet: ",
            second,
        );
        let over = driver::answer(second, Answer::Waited, b"");
        self.stands(b"S26 the same, its rewrite answered as a wait: ", over);
        self.stands(
            b"S26 the same, answered again after its end: ",
            driver::answer(over, Answer::Exchanged, b""),
        );
        self.stands(b"R4.4 a call of another kind: ", driver::reset());
    }
}

fn main(rt: HostRuntime) {
    let show = Show {
        to: Streams::new(rt),
    };
    show.parts();
    show.rooms();
    show.reads();
    show.waits();
    show.taken(b"S34 a peek of 3 bytes into 70: ", peeked(&[1u8, 2, 3, 0]));
    show.taken(
        b"S30 the same, its payload answered with 3 bytes: ",
        peeked(&[1u8, 2, 3]),
    );
    show.scrubs();
    show.to.write(b"S57 TXAT of the reset word, which has 3 there, reads as ");
    show.to.number(FifoControl::reset().txat() as u64);
    show.to.write(b"\n");
}
