// ADDR:WORD:MASK, an entry of a scrub's list: three words, each with its low byte first.

// Where the word s is three numbers, they stand at the place.
pub fn entry(s: &[u8], place: &mut [u8]) -> Option<()> {
    let mut words = s.splitn(3, |b| *b == b':');
    for part in place.chunks_exact_mut(4) {
        let word = u32::try_from(text::hex(words.next()?)?).ok()?;
        part.copy_from_slice(&word.to_le_bytes());
    }
    Some(())
}
