// The registers that are carried, by address.
#![tactic(auto)]

ghost use Rattle.std.specs.Prelude.{◌≡◌};
ghost use Rattle.place.specs.Place.{of_fifo, of_filter, single, register_at, is_carried};

#[derive(Clone, Copy)]
pub enum Register {
    Con,
    Osc,
    // Those that only hold what is written: CiNBTCFG, CiDBTCFG, CiTDC, CiTSCON, CiINT, IOCON.
    Plain(usize),
    // A filter control, a filter's object, a filter's mask.
    Filter(usize),
    Object(usize),
    Mask(usize),
    // Of FIFO n.
    Control(u8),
    Status(u8),
    Address(u8),
    // Of the transmit queue.
    QueueControl,
    QueueStatus,
    QueueAddress,
}

fn of_fifo(n: u8, word: u32) -> Register
    ensures { result ≡ of_fifo n word }
{
    if word == 0 {
        return Register::Control(n);
    }
    if word == 1 {
        return Register::Status(n);
    }
    Register::Address(n)
}

fn of_filter(m: usize, word: u32) -> Register
    ensures { result ≡ of_filter m word }
{
    if word == 0 {
        return Register::Object(m);
    }
    Register::Mask(m)
}

#[tactic(auto, unfolding(crate::specs::Place::single))]
fn single(a: u32) -> Option<Register>
    ensures { result ≡ single a }
{
    match a {
        0x000 => Some(Register::Con),
        0x004 => Some(Register::Plain(0)),
        0x008 => Some(Register::Plain(1)),
        0x00C => Some(Register::Plain(2)),
        0x014 => Some(Register::Plain(3)),
        0x01C => Some(Register::Plain(4)),
        0x050 => Some(Register::QueueControl),
        0x054 => Some(Register::QueueStatus),
        0x058 => Some(Register::QueueAddress),
        0xE00 => Some(Register::Osc),
        0xE04 => Some(Register::Plain(5)),
        _ => None,
    }
}

#[tactic(auto, unfolding(crate::specs::Place::register_at))]
pub fn register_at(a: u32) -> Option<Register>
    ensures { result ≡ register_at a }
{
    if 0 < a % 4 {
        return None;
    }
    if a < 0x05C {
        return single(a);
    }
    if a < 0x1D0 {
        return Some(of_fifo(((a - 0x050) / 12) as u8, (a - 0x050) % 12 / 4));
    }
    if a < 0x1F0 {
        return Some(Register::Filter(((a - 0x1D0) / 4) as usize));
    }
    if a < 0x2F0 {
        return Some(of_filter(((a - 0x1F0) / 8) as usize, (a - 0x1F0) % 8 / 4));
    }
    single(a)
}

// Whether an address is that of a register that is carried. None is cut: one of more than 12 bits is no register's.
#[tactic(auto, unfolding(crate::specs::Place::is_carried))]
pub fn is_carried(a: u32) -> bool
    ensures { result ≡ is_carried a }
{
    register_at(a).is_some()
}
