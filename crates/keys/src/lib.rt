// Basis keys (bitset.rs): a key is a slice of n words of 64 bits, for any n. Word 0 weighs first, and
// qubit q is bit q mod 64 of word q / 64.
#![tactic(auto)]

ghost use Rattle.std.specs.Prelude.{◌≡◌, ◌/◌, ◌<◌, length};
ghost use Rattle.keys.specs.Keys.{listed, bit_at, toggle, index_key, masked, flipped, order, Says, same, pairs_compared, without, word_without};

use std::cmp::Ordering;

// What a comparison answers: how two keys stand to each other (`Says` of specs/ has what each order
// means), and how many pairs of their words it compared.
#[derive(Clone, Copy)]
pub struct Compared {
    pub order: Ordering,
    pub pairs: usize,
}

// Whether a state may have keys of n words.
#[tactic(auto, unfolding(crate::specs::Keys::listed))]
pub fn is_width(n: usize) -> bool
    ensures { result ≡ listed n }
{
    matches!(n, 1 | 2 | 6 | 14 | 22 | 30 | 46 | 62)
}

// Bit q of a key.
pub fn bit(key: &[u64], q: usize) -> bool
    requires { q / 64 < length key.now }
    ensures { result ≡ bit_at q key.now }
{
    (key[q / 64] >> (q % 64)) & 1 == 1
}

// Flips bit q of a key.
pub fn toggle_bit(key: &mut [u64], q: usize)
    requires { q / 64 < length key.old }
    ensures { key.new ≡ toggle q key.old }
{
    key[q / 64] ^= 1 << (q % 64);
}

// Word k of a key, without the left-out bit where that word holds it.
fn word_without(word: u64, k: usize, left_out: Option<usize>) -> u64
    ensures { result ≡ word_without left_out k word }
{
    match left_out {
        Some(q) if k == q / 64 => word - (word & (1 << (q % 64))),
        _ => word,
    }
}

// Compares two keys of one width, with a bit left out of both or none: the first pair of words that
// differs decides, and no word after it is read. Words that differ in that bit alone are passed
// over.
pub fn compare(a: &[u64], b: &[u64], left_out: Option<usize>) -> Compared
    requires { length b.now ≡ length a.now }
    ensures order_value { result.order ≡ order (without left_out a.now) (without left_out b.now) }
    ensures means { Says result.order (without left_out a.now) (without left_out b.now) }
    ensures pairs_value { result.pairs
        ≡ pairs_compared (without left_out a.now) (without left_out b.now) }
{
    for k in 0..a.len() {
        if a[k] != b[k] {
            let x = word_without(a[k], k, left_out);
            let y = word_without(b[k], k, left_out);
            if x != y {
                return Compared {
                    order: x.cmp(&y),
                    pairs: k + 1,
                };
            }
        }
    }
    Compared {
        order: Ordering::Equal,
        pairs: a.len(),
    }
}

// Whether the qubits of `mask` that are in a key are those of `wanted`. For a later call: controls;
// nothing uses it yet.
pub fn equals_masked(key: &[u64], mask: &[u64], wanted: &[u64]) -> bool
    requires mask_len { length mask.now ≡ length key.now }
    requires wanted_len { length wanted.now ≡ length key.now }
    ensures { result ≡ same (masked mask.now key.now) wanted.now }
{
    for k in 0..key.len() {
        if key[k] & mask[k] != wanted[k] {
            return false;
        }
    }
    true
}

// Flips the qubits of a set in a key. For a later call: flips and Pauli strings; nothing uses it
// yet.
pub fn flip(key: &mut [u64], qubits: &[u64])
    requires { length qubits.now ≡ length key.old }
    ensures { key.new ≡ flipped qubits.now key.old }
{
    for k in 0..key.len() {
        key[k] ^= qubits[k];
    }
}

// Copies words: the first n mod 4 of them, then fours. Each four are loaded before any is stored:
// the two slices never overlap, and the compiler then moves them together, where it would make a
// call of `memcpy` of the library's method or of a plain loop, which takes longer than a record.
pub fn copy_words(src: &[u64], dst: &mut [u64])
    requires { length dst.old ≡ length src.now }
    ensures { dst.new ≡ src.now }
{
    let n = src.len();
    let mut k = n % 2;
    if k == 1 {
        dst[0] = src[0];
    }
    if n % 4 >= 2 {
        let a = src[k];
        let b = src[k + 1];
        dst[k] = a;
        dst[k + 1] = b;
        k += 2;
    }
    while k < n {
        let a = src[k];
        let b = src[k + 1];
        let c = src[k + 2];
        let d = src[k + 3];
        dst[k] = a;
        dst[k + 1] = b;
        dst[k + 2] = c;
        dst[k + 3] = d;
        k += 4;
    }
}

// Copies a key. A key of one word is one move.
pub fn copy_key(src: &[u64], dst: &mut [u64])
    requires { length dst.old ≡ length src.now }
    ensures { dst.new ≡ src.now }
{
    if src.len() == 1 {
        dst[0] = src[0];
    } else {
        copy_words(src, dst);
    }
}

// Copies a key with bit q flipped.
pub fn copy_key_toggled(src: &[u64], dst: &mut [u64], q: usize)
    requires dst_len { length dst.old ≡ length src.now }
    requires q_bound { q / 64 < length src.now }
    ensures { dst.new ≡ toggle q src.now }
{
    copy_key(src, dst);
    toggle_bit(dst, q);
}

// Writes the key of an index: the index in word 0, then zeros. The compiler makes a call of `memset`
// of the loop, so keys of one and two words go before it.
pub fn put_index(key: &mut [u64], index: u64)
    requires { 0 < length key.old }
    ensures { key.new ≡ index_key (length key.old) index }
{
    key[0] = index;
    if key.len() == 1 {
        return;
    }
    key[1] = 0;
    for k in 2..key.len() {
        key[k] = 0;
    }
}
