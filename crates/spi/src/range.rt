// Which RAM an access may touch, for any address and any length.
ghost use Rattle.std.specs.Prelude.{◌≡◌, if◌then◌else◌};
ghost use Rattle.spi.specs.Ram.{in_range, ram_address, access_of};
ghost use Rattle.spi.specs.declared.refusal.Refusal.TheVariants.{InvalidRamAddress, InvalidReadLength, InvalidWriteLength};

use crate::Refusal;

// The RAM's first address, and the first address behind it.
const RAM_START: usize = 0x400;

const RAM_END: usize = 0xC00;

// The length is compared with what is left behind the address: a sum could wrap, of however many bits a usize is.
#[tactic(auto, unfolding(crate::specs::Ram::in_range))]
pub fn in_range(address: u32, n: usize) -> bool
    ensures { result ≡ in_range address n }
{
    let a = address as usize;
    RAM_START <= a && a <= RAM_END && n <= RAM_END - a
}

// Where n bytes are to be read or written: 3 for those that are not all in the RAM.
#[tactic(auto, using(crate::proofs::Laws::range_told))]
pub fn in_ram(address: u32, n: usize) -> Result<u16, Refusal>
    ensures { result ≡ (if in_range address n then Ok address else Err (InvalidRamAddress address)) }
{
    if in_range(address, n) {
        Ok(address as u16)
    } else {
        Err(Refusal::InvalidRamAddress(address))
    }
}

// Where the n bytes that a user address means are. Up to 0xFBFF the sum fits an address of 16 bits.
#[tactic(auto, unfolding(crate::specs::Ram::ram_address))]
pub fn ram_address(u: u32, n: usize) -> Result<u16, Refusal>
    ensures { result ≡ ram_address u n }
{
    if 0xFBFF < u {
        return Err(Refusal::BadUserAddress);
    }
    in_ram(u + 0x400, n)
}

#[tactic(auto, unfolding(crate::specs::Ram::access_of))]
fn access(address: u32, n: usize, bad: Refusal) -> Result<(), Refusal>
    ensures { result ≡ access_of address n bad }
{
    in_ram(address, n)?;
    if n % 4 == 0 { Ok(()) } else { Err(bad) }
}

pub fn read_access(address: u32, n: usize) -> Result<(), Refusal>
    ensures { result ≡ access_of address n (InvalidReadLength n) }
{
    access(address, n, Refusal::InvalidReadLength(n))
}

pub fn write_access(address: u32, n: usize) -> Result<(), Refusal>
    ensures { result ≡ access_of address n (InvalidWriteLength n) }
{
    access(address, n, Refusal::InvalidWriteLength(n))
}
