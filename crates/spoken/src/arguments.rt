// What the words of a line say.
ghost use Rattle.std.specs.Prelude.{◌≡◌, ◌==◌, ◌≤◌, ◌<◌, ◌↔◌, ℕ, IsTrue, get_or, length, min, replicate, take};

use crate::Fault;
use crate::entries::entry;

// The number of each word, and the bytes of the last one: how many they are is its number.
#[derive(Drop)]
pub struct Arguments<'a> {
    numbers: [u64; 24],
    lent: &'a mut [u8],
    last: usize,
}

// Which word of a list a word is.
fn choice(w: &[u8], list: &[u8]) -> Option<u64> {
    Some(text::place(list, w)? as u64)
}

// A timestamp's word, or none.
fn stamp(w: &[u8]) -> Option<u64> {
    match w {
        b"-" => Some(0),
        _ => text::hex(w),
    }
}

// What a word says as the argument that a letter stands for; bytes go to the lent buffer, and the number is how many.
fn argument(letter: u8, w: &[u8], lent: &mut [u8]) -> Option<u64> {
    match letter {
        b'd' => text::decimal(w),
        b'h' => text::hex(w),
        b'i' => text::identifier(w),
        b'f' => text::flags(w),
        b'b' => Some(text::bytes(w, lent)? as u64),
        b'm' => choice(w, b"std ext both"),
        b'k' => choice(w, b"std ext"),
        b's' => stamp(w),
        b't' => choice(w, b"tx"),
        b'r' => choice(w, b"rx"),
        b'o' => choice(w, b"off"),
        b'q' => choice(w, b"queue"),
        b'w' => choice(w, b"report rewrite"),
        b'a' => choice(w, b"back"),
        b'u' => choice(w, b"unread"),
        _ => None,
    }
}

impl<'a> Arguments<'a> {
    // Of no line yet; the bytes of one will be in the lent buffer.
    pub fn new(lent: &'a mut [u8]) -> Arguments<'a>
        ensures numbers { result.numbers ≡ replicate 24 0 }
        ensures last { result.last ≡ 0 }
        ensures lent { result.lent.ghost_name ≡ lent.entry.ghost_name }
        ensures as_it_was { result.lent.now ≡ lent.old }
    {
        Arguments {
            numbers: [0u64; 24],
            lent,
            last: 0,
        }
    }

    // Argument k, 0 where there is none.
    pub fn number(&self, k: usize) -> u64
        ensures { result ≡ get_or self.now.numbers k 0 }
    {
        self.numbers.get(k).copied().unwrap_or(0)
    }

    // The largest number where it is larger.
    pub fn word(&self, k: usize) -> u32
        ensures { result ≡ min (get_or self.now.numbers k 0) u32.MAX }
    {
        u32::try_from(self.number(k)).unwrap_or(u32::MAX)
    }

    pub fn is_on(&self, k: usize) -> bool
        ensures { result ≡ (get_or self.now.numbers k 0 == 1) }
    {
        self.number(k) == 1
    }

    // Whether the arguments from `from` up to `to` are each 0 or 1.
    pub fn are_flags(&self, from: usize, to: usize) -> bool
        ensures { IsTrue result ↔ ((k : ℕ) → from ≤ k → k < to → get_or self.now.numbers k 0 ≤ 1) }
    {
        (from..to).all(|k| self.number(k) <= 1)
    }

    // The bytes that argument k is.
    pub fn payload(&self, k: usize) -> &[u8]
        ensures { result.now ≡ take (get_or self.now.numbers k 0) self.now.lent.now }
    {
        text::front(self.lent, self.number(k) as usize)
    }

    // The bytes that the last argument is.
    pub fn bytes(&self) -> &[u8]
        ensures { result.now ≡ take self.now.last self.now.lent.now }
    {
        text::front(self.lent, self.last)
    }

    // The last argument's number.
    pub fn last(&self) -> usize
        ensures { result ≡ self.now.last }
    {
        self.last
    }

    fn put(&mut self, k: usize, n: u64) {
        if let Some(place) = self.numbers.get_mut(k) {
            *place = n;
        }
        self.last = n as usize;
    }

    // Those of a line whose row has a letter for each.
    pub(crate) fn fill(&mut self, line: &[u8], shape: &[u8]) -> Result<(), Fault> {
        if text::count(line) != shape.len() + 1 {
            return Err(Fault::Count);
        }
        self.last = 0;
        for (k, letter) in shape.iter().enumerate() {
            let n = argument(*letter, text::word(line, k + 1), self.lent);
            self.put(k, n.ok_or(Fault::Word(k + 1, *letter))?);
        }
        Ok(())
    }

    // Those of a line whose row is we: the last one is all its entries.
    pub(crate) fn fill_list(&mut self, line: &[u8]) -> Result<(), Fault> {
        let words = text::count(line);
        if words < 2 || 258 < words {
            return Err(Fault::Count);
        }
        let way = choice(text::word(line, 1), b"report rewrite");
        self.put(0, way.ok_or(Fault::Word(1, b'w'))?);
        let mut places = self.lent.chunks_exact_mut(12);
        for k in 2..words {
            let place = places.next().ok_or(Fault::Word(k, b'e'))?;
            entry(text::word(line, k), place).ok_or(Fault::Word(k, b'e'))?;
        }
        self.last = 12 * (words - 2);
        Ok(())
    }
}
