// What a word says as a number.
ghost use Rattle.std.specs.Prelude.{◌≡◌, ◌≤◌};
ghost use Rattle.text.specs.Number.{value_of, number_of, decimal_of, hex_of};

// 16, a digit of no base, for a character that is none: hex is lowercase.
#[tactic(auto, unfolding(crate::specs::Number::value_of))]
fn digit(b: u8) -> u64
    ensures { (result ≡ value_of b) × (result ≤ 16) }
{
    match b {
        b'0'..=b'9' => b as u64 - 48,
        b'a'..=b'f' => b as u64 - 87,
        _ => 16,
    }
}

#[tactic(auto, using(crate::proofs::Steps::digit_steps), unfolding(crate::specs::Number::number_of))]
fn read(s: &[u8], base: u64, most: usize) -> Option<u64>
    requires { (base ≤ 16) × (most ≤ 12) }
    ensures { result ≡ number_of base most s.now }
{
    if s.is_empty() || most < s.len() {
        return None;
    }
    let mut v: u64 = 0;
    for b in s {
        let d = digit(*b);
        if base <= d {
            return None;
        }
        v = v * base + d;
    }
    Some(v)
}

// At most 12 digits.
#[tactic(auto, unfolding(crate::specs::Number::decimal_of))]
pub fn decimal(s: &[u8]) -> Option<u64>
    ensures { result ≡ decimal_of s.now }
{
    read(s, 10, 12)
}

// At most 8 digits: an address, an identifier or a word.
#[tactic(auto, unfolding(crate::specs::Number::hex_of))]
pub fn hex(s: &[u8]) -> Option<u64>
    ensures { result ≡ hex_of s.now }
{
    read(s, 16, 8)
}

// A byte of two digits.
fn byte(pair: &[u8]) -> Option<u8> {
    u8::try_from(read(pair, 16, 2)?).ok()
}

// Bytes, `-` for none, into the front of a lent buffer: how many, or None where the word is no bytes or they do not fit.
pub fn bytes(s: &[u8], out: &mut [u8]) -> Option<usize> {
    if matches!(s, b"-") {
        return Some(0);
    }
    let n = s.len() / 2;
    if n == 0 || s.len() % 2 == 1 {
        return None;
    }
    for (place, pair) in out.iter_mut().zip(s.chunks_exact(2)) {
        *place = byte(pair)?;
    }
    let fits = n <= out.len();
    fits.then_some(n)
}

// FDF 1, BRS 2, ESI 4, RTR 8, or `-`: each letter stands for more than those before it together.
pub fn flags(s: &[u8]) -> Option<u64> {
    match s {
        b"" => None,
        b"-" => Some(0),
        _ => s.iter().try_fold(0, with_flag),
    }
}

// With the flag of one more letter.
fn with_flag(sum: u64, letter: &u8) -> Option<u64> {
    let flag = match letter {
        b'f' => 1,
        b'b' => 2,
        b'e' => 4,
        b'r' => 8,
        _ => return None,
    };
    (sum < flag).then(|| sum + flag)
}

// What is added to an extended identifier in its number.
pub const EXTENDED: u64 = 0x1_0000_0000;

pub fn identifier(s: &[u8]) -> Option<u64> {
    let (kind, digits) = s.split_first()?;
    let id = hex(digits)?;
    match kind {
        b's' => Some(id),
        b'x' => id.checked_add(EXTENDED),
        _ => None,
    }
}
