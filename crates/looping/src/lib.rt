// One loop serves every call, over any line. A line is here the modelled chip, with a count of exchanges; of a board it is the SPI.
#![tactic(auto)]

ghost use Rattle.std.specs.Prelude.{◌≡◌, ℕ, Bool, List, is_ok};
ghost use Rattle.looping.specs.Line.{Transferred};

use driver::{Answer, Call, Next, Outcome};
use model::Heard;
use state::Model;

// An exchange was not carried out.
#[derive(Clone, Copy)]
pub struct Failed;

pub trait Line {
    // Whether these bytes, sent with such a buffer lent, may be carried out or not, with this in the buffer, and leave the line like that.
    ghost transferred: { Self → List ℕ → List ℕ → Bool → List ℕ → Self → Type 0 };

    // Whether a wait may leave the line like that.
    ghost waited: { Self → Self → Type 0 };

    // An exchange under one chip select: all of `tx` goes out, then all of `rx` is clocked in.
    fn transfer(&mut self, tx: &[u8], rx: &mut [u8]) -> Result<(), Failed>
        ensures { transferred self.old tx.now rx.old (is_ok result) rx.new self.new };

    // For 500 microseconds.
    fn wait(&mut self)
        ensures { waited self.old self.new };
}

#[derive(Clone, Copy)]
pub struct Chip {
    pub model: Model,
    pub exchanges: u64,
}

impl Line for Chip {
    ghost transferred = { Transferred };

    ghost waited = { λ c d. d ≡ c };

    fn transfer(&mut self, tx: &[u8], rx: &mut [u8]) -> Result<(), Failed> {
        let x = model::exchange(self.model, tx, rx.len(), rx);
        self.model = x.model;
        self.exchanges = self.exchanges.saturating_add(1);
        match x.heard {
            Heard::Failed => Err(Failed),
            _ => Ok(()),
        }
    }

    fn wait(&mut self) {}
}

// What the call asks for, done on the line: what it is answered, and how many bytes were received. Where a buffer is too short, nothing
// may be sent: that is a failed exchange.
fn turned<L: Line>(line: &mut L, next: Next, tx: &[u8], rx: &mut [u8]) -> (Answer, usize) {
    match next {
        Next::Transfer { n, want } => {
            if tx.len() < n {
                return (Answer::Failed, 0);
            }
            if rx.len() < want {
                return (Answer::Failed, 0);
            }
            match line.transfer(&tx[..n], &mut rx[..want]) {
                Ok(()) => (Answer::Exchanged, want),
                Err(_) => (Answer::Failed, want),
            }
        }
        Next::Wait => {
            line.wait();
            (Answer::Waited, 0)
        }
        Next::Short | Next::Over => (Answer::Failed, 0),
    }
}

// A call, run to its end. `lent` is what a RAM write sends; `buf` is what a RAM read, a peek or a get fills; `tx` and `rx` are scratch.
pub fn run<L: Line>(
    line: &mut L,
    start: Call,
    lent: &[u8],
    tx: &mut [u8],
    rx: &mut [u8],
    buf: &mut [u8],
) -> Outcome {
    let mut call = start;
    let mut got = 0;
    while 0 < driver::turns(call) {
        let next = driver::next(call, lent, tx);
        let (answer, n) = turned(line, next, tx, rx);
        got = n;
        call = driver::answer(call, answer, text::front(rx, got));
    }
    driver::finish(call, text::front(rx, got), buf)
}
