// Instructions: an opcode and an address in two bytes, and what follows them.
ghost use Rattle.std.specs.Prelude.{◌≡◌, ◌<◌, ◌++◌, ◌∷◌, []};
ghost use Rattle.words.specs.Words.{le_bytes};
ghost use Rattle.spi.specs.Instruction.{code_of, command_of};
ghost use Rattle.spi.specs.declared.instruction.OpCode.TheVariants.{Write, ReadCrc};

// WriteCrc is named and never sent.
#[derive(Clone, Copy)]
pub enum OpCode {
    Reset,
    Write,
    Read,
    WriteCrc,
    ReadCrc,
}

fn code(op: OpCode) -> u16
    ensures { (result ≡ code_of op) × (result < 16) }
{
    match op {
        OpCode::Reset => 0,
        OpCode::Write => 2,
        OpCode::Read => 3,
        OpCode::WriteCrc => 10,
        OpCode::ReadCrc => 11,
    }
}

// The address keeps its 12 low bits: no call has more.
#[tactic(auto, unfolding(crate::specs::Instruction::command_of))]
pub fn command(op: OpCode, address: u16) -> [u8; 2]
    ensures { result ≡ command_of op address }
{
    words::be_bytes(code(op) * 0x1000 + address % 0x1000)
}

// What writes a word to a register.
#[tactic(auto, unfolding(crate::specs::Instruction::command_of, words::specs::Words::be_bytes, words::specs::Words::le_bytes))]
pub fn write_word(address: u16, word: u32) -> [u8; 6]
    ensures { result ≡ command_of Write address ++ le_bytes word }
{
    let c = command(OpCode::Write, address);
    let w = words::le_bytes(word);
    [c[0], c[1], w[0], w[1], w[2], w[3]]
}

// What asks for a word and its CRC: the number of data bytes follows the command.
#[tactic(auto, unfolding(crate::specs::Instruction::command_of, words::specs::Words::be_bytes))]
pub fn checked_read(address: u16) -> [u8; 3]
    ensures { result ≡ command_of ReadCrc address ++ (4 ∷ []) }
{
    let c = command(OpCode::ReadCrc, address);
    [c[0], c[1], 4]
}
