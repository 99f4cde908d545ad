// Runs a script against the modelled chip: calls of the driver with what its @ lines say, and bus steps between them. Standard input
// has the script; what happened is written as a transcript.
#![tactic(auto)]

use acts::Chip;
use lines::Writer;
use output::Streams;
use reading::Line;
use script::{Between, Entry};
use spoken::{Arguments, Fault};

#[derive(Drop)]
struct Drive<'a> {
    chip: Chip,
    // The place of the one scrubber.
    place: usize,
    // The number of the line that was read last, counted from 1.
    number: u64,
    // Whether a call waits for its @ lines; its own line, and they, each ended by a newline.
    open: bool,
    head: Writer<'a>,
    notes: Writer<'a>,
    said: Arguments<'a>,
}

impl Drive<'_> {
    // The call that waits is run before the line that ends it, or at the input's end.
    fn run_call(&mut self) {
        if self.open {
            stage::run(
                &mut self.chip,
                self.head.text(),
                self.notes.text(),
                &mut self.place,
            );
        }
    }

    // With a new chip the scrubber is at the first entry.
    fn step(&mut self, step: Between, line: &[u8]) {
        if let Between::New = step {
            self.place = 0;
        }
        self.chip.between(step, line, &self.said);
    }

    fn refused(&mut self, fault: Fault, line: &[u8]) {
        let to = self.chip.to;
        to.error(self.number);
        to.write(b"\n");
        faults::told(to.stderr, self.number, fault, line);
    }

    fn opened(&mut self, line: &[u8]) {
        self.open = true;
        self.head.clear();
        self.head.put(line);
        self.notes.clear();
    }

    fn noted(&mut self, line: &[u8]) {
        if !self.open {
            return self.refused(Fault::Alone, line);
        }
        if self.notes.room() <= line.len() {
            return self.refused(Fault::Room, line);
        }
        self.notes.put(line);
        self.notes.byte(b'\n');
    }

    fn line(&mut self, line: Line<'_>) {
        let entry = script::entry_of(line, &mut self.said);
        let said = line.text;
        self.number = self.number.saturating_add(1);
        if script::ends(entry) {
            self.run_call();
            self.open = false;
        }
        match entry {
            Ok(Entry::Blank) => {}
            Ok(Entry::Note(Ok(_))) => self.noted(said),
            Ok(Entry::Call) => self.opened(said),
            Ok(Entry::Note(Err(f))) | Err(f) => self.refused(f, said),
            Ok(Entry::Step(step)) => self.step(step, said),
        }
    }
}

fn main(rt: HostRuntime) {
    let to = Streams::new(rt);
    let mut buffer = io::large_buffer();
    let mut head = io::large_buffer();
    let mut notes = io::large_buffer();
    let mut lent = [0u8; 32768];
    let mut drive = Drive {
        chip: Chip::new(to),
        place: 0,
        number: 0,
        open: false,
        head: Writer::new(&mut head),
        notes: Writer::new(&mut notes),
        said: Arguments::new(&mut lent),
    };
    reading::each_line(to.stdin, to.stderr, &mut buffer, |line| drive.line(line));
    drive.run_call();
}
