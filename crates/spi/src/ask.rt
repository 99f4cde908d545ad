// What a call asks of its caller, the bytes that go over the line for it, and how the caller answers.
ghost use Rattle.std.specs.Prelude.{◌≡◌};
ghost use Rattle.parts.specs.Parts.{zeroed};
ghost use Rattle.spi.specs.Ask.{head_of, exchange_of};
ghost use Rattle.spi.specs.Instruction.{command_of};
ghost use Rattle.spi.specs.declared.ask.Ask.{Ask};

use crate::{OpCode, checked_read, command, write_word};

// What a call asks for now.
#[derive(Clone, Copy)]
pub enum Ask {
    // A plain read of so many bytes, of a register or of RAM.
    Read { address: u16, count: usize },
    // A checked read of a register.
    Checked { address: u16 },
    // A word to be written, to a register or to RAM.
    Word { address: u16, word: u32 },
    // The first bytes of the call's body to be written to RAM.
    Body { address: u16, count: usize },
    // The chip to be reset.
    Reset,
    // A wait of 500 microseconds.
    Wait,
    // Nothing: the call is over.
    Nothing,
}

// A word to be read, of a register or of RAM.
pub fn read_word(address: u16) -> Ask
    ensures { result ≡ Ask.Read address 4 }
{
    Ask::Read { address, count: 4 }
}

// How the caller answers. What an exchange received is a slice beside it; a failed exchange was not carried out.
#[derive(Clone, Copy)]
pub enum Answer {
    Exchanged,
    Failed,
    Waited,
}

// The bytes of an exchange: the first `send` of the head and behind them the first `body` of the call's body go out, then
// `want` come back.
#[derive(Clone, Copy)]
pub struct Exchange {
    pub head: [u8; 6],
    pub send: usize,
    pub body: usize,
    pub want: usize,
}

// A command alone in the head.
#[tactic(auto, unfolding(parts::specs::Parts::zeroed, crate::specs::Instruction::command_of, words::specs::Words::be_bytes))]
fn command_head(op: OpCode, address: u16) -> [u8; 6]
    ensures { result ≡ zeroed 6 (command_of op address) }
{
    let c = command(op, address);
    [c[0], c[1], 0, 0, 0, 0]
}

// A command and the number of data bytes in the head.
#[tactic(auto, unfolding(parts::specs::Parts::zeroed, crate::specs::Instruction::command_of, words::specs::Words::be_bytes))]
fn checked_head(address: u16) -> [u8; 6]
    ensures { result ≡ zeroed 6 (head_of (Ask.Checked address)) }
{
    let c = checked_read(address);
    [c[0], c[1], c[2], 0, 0, 0]
}

#[tactic(auto, unfolding(crate::specs::Ask::exchange_of, parts::specs::Parts::zeroed))]
fn idle() -> Exchange
    ensures { result ≡ exchange_of Ask.Wait }
{
    Exchange {
        head: [0u8; 6],
        send: 0,
        body: 0,
        want: 0,
    }
}

#[tactic(auto, unfolding(crate::specs::Ask::exchange_of, parts::specs::Parts::zeroed, crate::specs::Instruction::command_of, words::specs::Words::be_bytes, words::specs::Words::le_bytes))]
pub fn exchange_of(ask: Ask) -> Exchange
    ensures { result ≡ exchange_of ask }
{
    match ask {
        Ask::Read { address, count } => Exchange {
            head: command_head(OpCode::Read, address),
            send: 2,
            body: 0,
            want: count,
        },
        Ask::Checked { address } => Exchange {
            head: checked_head(address),
            send: 3,
            body: 0,
            want: 6,
        },
        Ask::Word { address, word } => Exchange {
            head: write_word(address, word),
            send: 6,
            body: 0,
            want: 0,
        },
        Ask::Body { address, count } => Exchange {
            head: command_head(OpCode::Write, address),
            send: 2,
            body: count,
            want: 0,
        },
        Ask::Reset => Exchange {
            head: command_head(OpCode::Reset, 0),
            send: 2,
            body: 0,
            want: 0,
        },
        Ask::Wait | Ask::Nothing => idle(),
    }
}
