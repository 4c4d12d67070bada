// Words of 64 bits as little-endian bytes, both ways.
ghost use Rattle.std.specs.Prelude.{◌≡◌, ◌+◌, ◌*◌, ◌≤◌, ◌<◌, length};
ghost use Rattle.std.proofs.lemmas.List.Edits.{sets};
ghost use Rattle.text.specs.Words.{word_at, word_bytes, file_words, written};

// The word that begins at byte `at`, little-endian.
pub fn word_at(bytes: &[u8], at: usize) -> u64
    requires { at + 8 ≤ length bytes.now }
    ensures { result ≡ word_at bytes.now at }
{
    let mut word = [0; 8];
    word.copy_from_slice(&bytes[at..at + 8]);
    u64::from_le_bytes(word)
}

// Writes a word from byte `at` on, little-endian; every other byte stays.
pub fn put_word(bytes: &mut [u8], at: usize, w: u64)
    requires { at + 8 ≤ length bytes.old }
    ensures { bytes.new ≡ sets bytes.old at (word_bytes w) }
{
    bytes[at..at + 8].copy_from_slice(&w.to_le_bytes());
}

// Reads the whole words of bytes over the first of a slice; the words after them stay.
pub fn read_words(bytes: &[u8], words: &mut [u64])
    requires { length bytes.now ≤ 8 * length words.old }
    ensures { words.new ≡ sets words.old 0
        (file_words bytes.now) }
{
    let (eights, _) = bytes.as_chunks::<8>();
    for (k, eight) in eights.iter().enumerate() {
        words[k] = u64::from_le_bytes(*eight);
    }
}

// Writes words as bytes over the first of a slice; the bytes after them stay.
pub fn put_words(words: &[u64], bytes: &mut [u8])
    requires { 8 * length words.now ≤ length bytes.old }
    ensures { bytes.new ≡ written bytes.old words.now }
{
    for (k, word) in words.iter().enumerate() {
        put_word(bytes, 8 * k, *word);
    }
}
