// Lists of words: read from standard input, and their exclusive or.
// The exclusive or of words.
pub fn mark(words: &[u64]) -> u64 {
    words.iter().fold(0, |mark, word| mark ^ word)
}

// Reads words over a slice, and says whether all came.
pub fn read_words(words: &mut [u64]) -> bool {
    for word in words.iter_mut() {
        let mut bytes = [0; 8];
        if io::read_full(0, &mut bytes) < 8 {
            return false;
        }
        *word = u64::from_le_bytes(bytes);
    }
    true
}
