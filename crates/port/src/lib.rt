// The port's side: what a call does now, as a transcript's line, and where an answer takes it.
#![tactic(auto, using(lines::proofs::Appends::more))]

ghost use Rattle.lines.specs.Writer.{Appends};

use driver::{Answer, Call, Next, Outcome};
use items::Item;
use lines::Writer;
use spoken::Fault;

// A RAM read of so many bytes ends with them.
fn ended(call: Call, read: Option<usize>, rx: &[u8], out: &mut Writer<'_>)
    ensures { Appends out.old out.new }
{
    let mut buf = [0u8; 2048];
    out.put(b"= ");
    match (driver::finish(call, rx, &mut buf), read) {
        (Outcome::Done, Some(n)) => out.read_result(text::front(&buf, n)),
        (outcome, _) => out.result(outcome, &buf),
    }
}

// What the call does now. `sent` is what a RAM write sends, `rx` what came last, and `read` how many bytes a RAM read asks for.
pub fn put_line(call: Call, read: Option<usize>, sent: &[u8], rx: &[u8], out: &mut Writer<'_>)
    ensures { Appends out.old out.new }
{
    let mut tx = [0u8; 4200];
    match driver::next(call, sent, &mut tx) {
        Next::Transfer { n, want } => out.exchange(text::front(&tx, n), want),
        Next::Wait => out.put(b"wait 500"),
        Next::Over => ended(call, read, rx, out),
        Next::Short => out.put(b"short"),
    }
}

// What a line of the transcript answers its call.
pub fn answer_of(item: Result<Item, Fault>) -> Option<Answer> {
    match item {
        Ok(Item::Got(_)) => Some(Answer::Exchanged),
        Ok(Item::Failed) => Some(Answer::Failed),
        Ok(Item::Wait) => Some(Answer::Waited),
        _ => None,
    }
}

// The call after an answer. No byte stands beside the answer to a wait.
pub fn answered(call: Call, answer: Answer, rx: &[u8]) -> Call {
    match answer {
        Answer::Waited => driver::answer(call, answer, b""),
        _ => driver::answer(call, answer, rx),
    }
}
