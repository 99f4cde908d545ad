// What an answer says. Each reply tests the answer's kind and its length before its bytes (26), and is given the refusal that
// a failed exchange means.
ghost use Rattle.std.specs.Prelude.{◌≡◌, length};
ghost use Rattle.spi.specs.Reply.{word_reply, pair_reply, done_reply, wait_reply, crc_good, crc_reply};

use crate::{Answer, Refusal, checked_read};

// Where a word and its CRC were wanted.
#[derive(Clone, Copy)]
pub enum CheckedWord {
    Word(u32),
    Mismatch,
    Bad(Refusal),
}

// Where one word was wanted.
pub fn word_reply(failed: Refusal, answer: Answer, rx: &[u8]) -> Result<u32, Refusal>
    ensures { result ≡ word_reply failed answer rx.now }
{
    done_reply(failed, answer, rx.len(), 4)?;
    Ok(words::le_at(rx, 0))
}

// Where two words were wanted.
pub fn pair_reply(failed: Refusal, answer: Answer, rx: &[u8]) -> Result<(u32, u32), Refusal>
    ensures { result ≡ pair_reply failed answer rx.now }
{
    done_reply(failed, answer, rx.len(), 8)?;
    Ok((words::le_at(rx, 0), words::le_at(rx, 4)))
}

// `got` bytes were received where `want` were wanted.
pub fn done_reply(failed: Refusal, answer: Answer, got: usize, want: usize) -> Result<(), Refusal>
    ensures { result ≡ done_reply failed answer got want }
{
    match answer {
        Answer::Exchanged if got == want => Ok(()),
        Answer::Exchanged | Answer::Waited => Err(Refusal::WrongAnswer),
        Answer::Failed => Err(failed),
    }
}

// `got` bytes stand beside the answer to a wait.
pub fn wait_reply(answer: Answer, got: usize) -> Result<(), Refusal>
    ensures { result ≡ wait_reply answer got }
{
    match answer {
        Answer::Waited if got == 0 => Ok(()),
        _ => Err(Refusal::WrongAnswer),
    }
}

// Whether the CRC that was received is that of the 3 bytes sent and the 4 data bytes.
#[tactic(auto, using(crc::proofs::Laws::of_parts), unfolding(crate::specs::Reply::crc_good))]
fn crc_good(address: u16, rx: &[u8]) -> bool
    requires { length rx.now ≡ 6 }
    ensures { result ≡ crc_good address rx.now }
{
    let c = checked_read(address);
    crc::update(crc::update(crc::START, &c), &rx[..4]) == words::be_at(rx, 4)
}

pub fn crc_reply(failed: Refusal, address: u16, answer: Answer, rx: &[u8]) -> CheckedWord
    ensures { result ≡ crc_reply failed address answer rx.now }
{
    match done_reply(failed, answer, rx.len(), 6) {
        Ok(()) if crc_good(address, rx) => CheckedWord::Word(words::le_at(rx, 0)),
        Ok(()) => CheckedWord::Mismatch,
        Err(why) => CheckedWord::Bad(why),
    }
}
