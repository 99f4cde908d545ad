// Holds a transcript against the port: makes each call, gives it the answers that are written there, and compares what it does.
#![tactic(auto)]

use driver::Call;
use items::Item;
use judge::Judge;
use lines::Writer;
use output::Streams;
use reading::Line;
use spoken::{Arguments, CallName, Fault};

#[derive(Drop)]
struct Replay<'a> {
    judge: Judge<'a>,
    // The last call that was understood.
    call: Option<Call>,
    // What the call's line says, and the bytes that came.
    said: Arguments<'a>,
    rx: [u8; 4200],
    // What the port does.
    out: Writer<'a>,
}

impl Replay<'_> {
    // What the port does now, where that is looked at.
    fn put_line(&mut self, item: Result<Item, Fault>) {
        self.out.clear();
        let Some(call) = self.call else {
            return;
        };
        if self.judge.is_due(item) {
            let rx = text::front(&self.rx, self.judge.got());
            port::put_line(
                call,
                self.judge.read(),
                self.said.bytes(),
                rx,
                &mut self.out,
            );
        }
    }

    // The call after a line: it begins there, or is answered. A scrub starts at the first entry.
    fn moved(
        &self,
        item: Result<Item, Fault>,
        heard: Option<Result<CallName, Fault>>,
    ) -> Option<Call> {
        if let Some(Ok(name)) = heard {
            return Some(starts::start(name, &self.said, 0));
        }
        let Some(answer) = port::answer_of(item) else {
            return self.call;
        };
        let rx = text::front(&self.rx, self.judge.got());
        Some(port::answered(self.call?, answer, rx))
    }

    fn line(&mut self, line: Line<'_>) {
        let item = items::item_of(line, &mut self.rx);
        self.put_line(item);
        self.judge.settle(item, line.text, self.out.text());
        let heard = judge::hear(item, line, &mut self.said);
        self.judge
            .after(item, heard, line.text, &self.said, &self.rx);
        // Answers go to the call as long as it does what the transcript has.
        if self.judge.is_followed() {
            self.call = self.moved(item, heard);
        }
    }
}

fn main(rt: HostRuntime) {
    let to = Streams::new(rt);
    let mut buffer = [0u8; 8192];
    let mut out = [0u8; 8192];
    let mut note = [0u8; 16400];
    let mut lent = [0u8; 4200];
    let mut replay = Replay {
        judge: Judge::new(to, &mut note),
        call: None,
        said: Arguments::new(&mut lent),
        rx: [0u8; 4200],
        out: Writer::new(&mut out),
    };
    reading::each_line(to.stdin, to.stderr, &mut buffer, |line| replay.line(line));
    replay.line(Line::default());
    replay.judge.tell();
}
