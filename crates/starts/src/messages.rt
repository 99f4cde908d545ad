// The header of a message, from the arguments of a line.
ghost use Rattle.std.specs.Prelude.{◌≤◌};

use crate::setup::{identifier, is_extended};
use driver::Header;
use spoken::Arguments;

// Whether a flag's bit is in the number of the flags.
fn has(flags: u64, n: u64) -> bool {
    flags & n == n
}

// The header of a message, by the numbers of its identifier and of its flags.
pub fn header_of(id: u64, flags: u64) -> Header {
    Header {
        extended: is_extended(id),
        id: identifier(id),
        rtr: has(flags, 8),
        brs: has(flags, 2),
        fdf: has(flags, 1),
        esi: has(flags, 4),
    }
}

// Identifier and flags are the arguments from k on.
pub(crate) fn header_at(a: &Arguments<'_>, k: usize) -> Header
    requires { k ≤ 1 }
{
    header_of(a.number(k), a.number(k + 1))
}
