// A lent list of watch entries, and where a scrub step begins in it.
#![tactic(auto)]

ghost use Rattle.std.specs.Prelude.{◌≡◌};
ghost use Rattle.watch.specs.Watch.{all_carried, place_in, turned_down, start_of};

use spi::Refusal;

// A register's address, the word that is wanted there, and a 1 for each bit that is cared for.
#[derive(Clone, Copy)]
pub struct Watch {
    pub address: u32,
    pub wanted: u32,
    pub care: u32,
}

// How far a scrubber is: the place of the entry that it visits next, where the list has one there.
#[derive(Clone, Copy)]
pub struct Scrubber {
    pub place: usize,
}

// What a step that visits an entry begins with: the scrubber's place, the place behind the entry, and the entry.
#[derive(Clone, Copy)]
pub struct Begun {
    pub place: usize,
    pub next: usize,
    pub address: u16,
    pub wanted: u32,
    pub care: u32,
}

// A step that is refused before any exchange: the scrubber's place, which stays, and why.
#[derive(Clone, Copy)]
pub struct TurnedDown {
    pub place: usize,
    pub why: Refusal,
}

// A place beyond the end starts again at the first entry.
fn place_in(place: usize, n: usize) -> usize
    ensures { result ≡ place_in place n }
{
    if place < n { place } else { 0 }
}

// Whether each entry's address is a register's.
fn all_carried(list: &[Watch]) -> bool
    ensures { result ≡ all_carried list.now }
{
    list.iter().all(|w| place::is_carried(w.address))
}

fn turned_down(place: usize, why: Refusal) -> TurnedDown
    ensures { result ≡ turned_down place why }
{
    TurnedDown { place, why }
}

// Where a step over a list begins: 32 for an empty list, then 33.
#[tactic(auto, using(crate::proofs::Lists::short_at), unfolding(crate::specs::Watch::start_of))]
pub fn scrub_start(s: Scrubber, list: &[Watch]) -> Result<Begun, TurnedDown>
    ensures { result ≡ start_of s.place list.now }
{
    let place = place_in(s.place, list.len());
    let Some(w) = list.get(place) else {
        return Err(turned_down(s.place, Refusal::EmptyList));
    };
    if !all_carried(list) {
        return Err(turned_down(s.place, Refusal::NotCarried));
    }
    // A register's address has 12 bits.
    Ok(Begun {
        place: s.place,
        next: place + 1,
        address: w.address as u16,
        wanted: w.wanted,
        care: w.care,
    })
}
