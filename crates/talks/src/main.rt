// Runs calls against answers that are written down, and writes the transcript of it. Standard input has for each call its line and
// then, one a line, what it is answered: `< BYTES`, `!`, `wait 500`. What the program writes is compared with a transcript that was
// worked out from the scope document apart from the code. A line that is not understood is written as `error LINE`; the answers to a
// call that is not understood go to no call.
#![tactic(auto)]

use classes::Seen;
use driver::{Call, Next};
use items::Item;
use lines::Writer;
use output::Streams;
use reading::Line;
use spoken::{Arguments, CallName, Fault};

#[derive(Drop)]
struct Talks<'a> {
    to: Streams,
    // The number of the line that was read last, counted from 1.
    number: u64,
    // The last call and what is known of it, where its line was understood.
    last: Option<(Call, Seen)>,
    // What the call's line says, and the bytes that came.
    said: Arguments<'a>,
    rx: [u8; 4200],
    // What the call does now.
    out: Writer<'a>,
}

fn got_of(item: Item) -> usize {
    match item {
        Item::Got(n) => n,
        _ => 0,
    }
}

// A wait puts no bytes, so that it needs no room for them.
fn waits(call: Call, sent: &[u8]) -> bool {
    matches!(driver::next(call, sent, &mut []), Next::Wait)
}

impl Talks<'_> {
    // What a line is, or what is wrong with it.
    fn judged(&self, item: Item, heard: Option<Result<CallName, Fault>>) -> Result<Item, Fault> {
        if let Some(Err(fault)) = heard {
            return Err(fault);
        }
        match item {
            Item::Blank | Item::Call => Ok(item),
            Item::Got(_) | Item::Failed | Item::Wait if self.last.is_some() => Ok(item),
            Item::Got(_) | Item::Failed | Item::Wait => Err(Fault::Alone),
            _ => Err(Fault::Place),
        }
    }

    // What the call does after this line, where it does something: a wait is not written here, since its line comes with the answers.
    fn moved(&mut self, item: Item) {
        let Some((before, seen)) = self.last else {
            return;
        };
        let rx = text::front(&self.rx, got_of(item));
        let call = match port::answer_of(Ok(item)) {
            Some(answer) => port::answered(before, answer, rx),
            None => before,
        };
        self.last = Some((call, seen));
        if waits(call, self.said.bytes()) {
            return;
        }
        self.out.clear();
        port::put_line(call, seen.read(), self.said.bytes(), rx, &mut self.out);
        self.to.write_line(self.out.text());
    }

    fn refused(&self, fault: Fault, line: &[u8]) {
        self.to.error(self.number);
        faults::told(self.to.stderr, self.number, fault, line);
    }

    fn begin(&mut self, name: CallName) {
        let call = starts::start(name, &self.said, 0);
        self.last = Some((call, Seen::new(name, &self.said)));
    }

    fn line(&mut self, line: Line<'_>) {
        let item = items::item_of(line, &mut self.rx);
        let heard = judge::hear(item, line, &mut self.said);
        self.number = self.number.saturating_add(1);
        match heard {
            Some(Ok(name)) => self.begin(name),
            Some(Err(_)) => self.last = None,
            None => {}
        }
        match item.and_then(|item| self.judged(item, heard)) {
            Ok(Item::Blank) => self.to.write_line(line.text),
            Ok(item) => {
                self.to.write_line(line.text);
                self.moved(item);
            }
            Err(fault) => self.refused(fault, line.text),
        }
    }
}

fn main(rt: HostRuntime) {
    let to = Streams::new(rt);
    let mut buffer = [0u8; 8192];
    let mut out = [0u8; 8192];
    let mut lent = [0u8; 4200];
    let mut talks = Talks {
        to,
        number: 0,
        last: None,
        said: Arguments::new(&mut lent),
        rx: [0u8; 4200],
        out: Writer::new(&mut out),
    };
    reading::each_line(to.stdin, to.stderr, &mut buffer, |line| talks.line(line));
}
