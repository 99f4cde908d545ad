// A scrub, from the bytes that its line's entries are.
ghost use Rattle.std.specs.Prelude.{◌≡◌, ◌≤◌, length, take};
ghost use Rattle.driver.specs.Calls.{Scrub, started};
ghost use Rattle.driver.specs.Numbers.{call_of};
ghost use Rattle.starts.specs.Starts.{IsStarted};

use driver::{Call, Scrubber, Watch};
use spoken::Arguments;

// An entry, with its words as `spoken` puts them.
fn entry(bytes: &[u8]) -> Watch
    requires { 12 ≤ length bytes.now }
{
    Watch {
        address: words::le_at(bytes, 0),
        wanted: words::le_at(bytes, 4),
        care: words::le_at(bytes, 8),
    }
}

// All 0 behind the entries that there are.
fn list_of(bytes: &[u8]) -> [Watch; 256] {
    let none = Watch {
        address: 0,
        wanted: 0,
        care: 0,
    };
    let mut list = [none; 256];
    for (place, bytes) in list.iter_mut().zip(bytes.chunks_exact(12)) {
        *place = entry(bytes);
    }
    list
}

// How many entries so many bytes are.
fn size_of(n: usize) -> usize
    ensures { result ≤ 256 }
{
    (n / 12).min(256)
}

// The one place where a list is lent, with nothing else in it.
fn scrub_front(s: Scrubber, list: [Watch; 256], n: usize, rewrite: bool) -> Call
    requires { n ≤ 256 }
    ensures { call_of result ≡ started (Scrub s.place (take n list) rewrite) }
{
    driver::scrub(s, &list[..n], rewrite)
}

// One step.
pub fn scrub_call(a: &Arguments<'_>, place: usize) -> Call
    ensures { IsStarted result }
{
    scrub_front(
        Scrubber { place },
        list_of(a.bytes()),
        size_of(a.bytes().len()),
        a.is_on(0),
    )
}
