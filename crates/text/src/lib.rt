// Words of a line, and what a word says. A line has single spaces between its words and none at its ends.
#![tactic(auto)]

ghost use Rattle.std.specs.Prelude.{◌≡◌, ◌≤◌, IfSome, length, take};

mod number;

pub use number::{EXTENDED, bytes, decimal, flags, hex, identifier};

fn is_space(b: &u8) -> bool {
    *b == b' '
}

// Word k of a line, counted from 0; empty where there is none.
pub fn word(line: &[u8], k: usize) -> &[u8] {
    line.split(is_space).nth(k).unwrap_or(b"")
}

// A line from word k on.
pub fn rest(line: &[u8], k: usize) -> &[u8] {
    line.splitn(k.saturating_add(1), is_space)
        .nth(k)
        .unwrap_or(b"")
}

// How many words a line has.
pub fn count(line: &[u8]) -> usize {
    if line.is_empty() {
        return 0;
    }
    line.split(is_space).count()
}

// Which word of a list this is.
pub fn place(list: &[u8], name: &[u8]) -> Option<usize>
    ensures { IfSome result (λ k. (k ≤ length list.now) × (length name.now ≤ length list.now)) }
{
    list.split(is_space).position(|it| it == name)
}

// Whether word k is this one.
pub fn is(line: &[u8], k: usize, name: &[u8]) -> bool {
    word(line, k) == name
}

// The first n bytes, all where there are fewer.
pub fn front(s: &[u8], n: usize) -> &[u8]
    ensures { result.now ≡ take n s.now }
{
    s.get(..n).unwrap_or(s)
}
