// Bytes sent and a number of bytes wanted, read as an operation.
ghost use Rattle.std.specs.Prelude.{◌≡◌, ◌≤◌, length};
ghost use Rattle.operation.specs.Operation.{in_ram, read_at, write_at, checked_at, reset_at, asked};

use place::{Register, register_at};

#[derive(Clone, Copy)]
pub enum Operation {
    Reset,
    Read(Register),
    Checked(Register),
    Write(Register, u32),
    // At a place of RAM: as many bytes as are wanted, or those sent behind the command.
    ReadRam(usize),
    WriteRam(usize),
    // Not an exchange that the chip answers.
    None,
}

#[tactic(auto, unfolding(crate::specs::Operation::in_ram))]
fn in_ram(a: u32, n: usize) -> bool
    ensures { result ≡ in_ram a n }
{
    spi::in_range(a, n) && n % 4 == 0
}

#[tactic(auto, unfolding(crate::specs::Operation::read_at))]
fn read_at(a: u32, want: usize) -> Operation
    ensures { result ≡ read_at a want }
{
    if in_ram(a, want) {
        return Operation::ReadRam(a as usize - 0x400);
    }
    if want != 4 {
        return Operation::None;
    }
    register_at(a).map_or(Operation::None, Operation::Read)
}

#[tactic(auto, unfolding(crate::specs::Operation::write_at))]
fn write_at(a: u32, s: &[u8]) -> Operation
    requires { 2 ≤ length s.now }
    ensures { result ≡ write_at a s.now }
{
    if in_ram(a, s.len() - 2) {
        return Operation::WriteRam(a as usize - 0x400);
    }
    if s.len() != 6 {
        return Operation::None;
    }
    register_at(a).map_or(Operation::None, |r| Operation::Write(r, words::le_at(s, 2)))
}

#[tactic(auto, unfolding(crate::specs::Operation::checked_at))]
fn checked_at(a: u32, s: &[u8], want: usize) -> Operation
    ensures { result ≡ checked_at a s.now want }
{
    if s.len() != 3 || s[2] != 4 || want != 6 {
        return Operation::None;
    }
    register_at(a).map_or(Operation::None, Operation::Checked)
}

#[tactic(auto, unfolding(crate::specs::Operation::reset_at))]
fn reset_at(a: u32, s: &[u8], want: usize) -> Operation
    ensures { result ≡ reset_at a s.now want }
{
    if a == 0 && s.len() == 2 && want == 0 {
        Operation::Reset
    } else {
        Operation::None
    }
}

// By the opcode: the exchanges that the chip answers.
#[tactic(auto, unfolding(crate::specs::Operation::asked))]
pub fn asked(s: &[u8], want: usize) -> Operation
    ensures { result ≡ asked s.now want }
{
    if s.len() < 2 {
        return Operation::None;
    }
    let w = words::be_at(s, 0) as u32;
    let a = field::get(w, 0, 12);
    match field::get(w, 12, 4) {
        3 if s.len() == 2 => read_at(a, want),
        2 if want == 0 => write_at(a, s),
        11 => checked_at(a, s, want),
        0 => reset_at(a, s, want),
        _ => Operation::None,
    }
}
