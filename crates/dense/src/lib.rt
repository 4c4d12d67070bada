// Dense import: of pairs re, im those that are large enough become part 0 under their index
// (`import_dense` of statevector.rs). One pass counts them, one writes their records; every test
// stands before the first word that is written.
#![tactic(auto)]

ghost use Rattle.std.specs.Prelude.{◌≡◌, true, ◌&&◌, ◌+◌, ◌*◌, ◌≤◌, ◌<◌, length, get_or, []};
ghost use Rattle.std.proofs.lemmas.List.Edits.{sets};
ghost use Rattle.keys.specs.Keys.{index_key};
ghost use Rattle.merge.specs.Records.{encode, flat};
ghost use Rattle.dense.specs.Dense.{dense_amplitude, wanted, dense_from, finite_word, dense_response, dense_call};
ghost use Rattle.dense.specs.Passes.{counted_of, dense_over};
ghost use Rattle.statevector.specs.Tests.{all};
ghost use Rattle.statevector.specs.Answers.{made-response};

use amplitudes::Complex;
use statevector::{Refusal, Side, State};

// Whether both words of a pair are the patterns of finite floats.
fn is_finite_pair(re: u64, im: u64) -> bool
    ensures { result ≡ (finite_word re && finite_word im) }
{
    amplitudes::is_finite_bits(re) && amplitudes::is_finite_bits(im)
}

// The amplitude of a pair of finite words.
fn amplitude(re: u64, im: u64) -> Complex
    requires { (finite_word re && finite_word im) ≡ true }
    ensures { result ≡ dense_amplitude re im }
{
    Complex {
        re: amplitudes::from_bits(re),
        im: amplitudes::from_bits(im),
    }
}

// Whether an amplitude is large enough: its norm_inf is EPS or more.
fn is_wanted(a: Complex) -> bool
    ensures { result ≡ wanted a }
{
    a.norm_inf() >= amplitudes::EPS
}

// The first pass: how many pairs are wanted, with 6 for any word and 7 for a stray one.
fn count_wanted(words: &[u64]) -> Result<usize, Refusal>
    ensures { result ≡ counted_of words.now }
{
    let (pairs, stray) = words.as_chunks::<2>();
    let mut count = 0;
    for &[re, im] in pairs {
        if !is_finite_pair(re, im) {
            return Err(Refusal::NotFinite);
        }
        count += usize::from(is_wanted(amplitude(re, im)));
    }
    match stray.first() {
        None => Ok(count),
        Some(&w) if amplitudes::is_finite_bits(w) => Err(Refusal::Length),
        Some(_) => Err(Refusal::NotFinite),
    }
}

// A pair of finite words over record o of the store, under index i.
fn put_wanted(re: u64, im: u64, i: usize, n: usize, store: &mut [u64], o: usize)
    requires finite_value { (finite_word re && finite_word im) ≡ true }
    requires n_nonzero { 0 < n }
    requires n_in_bounds { o * (n + 2) + (n + 2) ≤ length store.old }
    ensures { store.new ≡ sets store.old (o * (n + 2))
        (encode (record { key = index_key n i; amp = dense_amplitude re im })) }
{
    let to = o * (n + 2);
    keys::put_index(&mut store[to..to + n], i as u64);
    store[to + n] = re;
    store[to + n + 1] = im;
}

// The second pass: the wanted pairs as records over the start of the store.
fn write_wanted(words: &[u64], n: usize, store: &mut [u64])
    requires words_value { all finite_word words.now ≡ true }
    requires n_nonzero { 0 < n }
    requires n_in_bounds { length (dense_from n 0 words.now) * (n + 2) ≤ length store.old }
    ensures { store.new ≡ sets store.old 0
        (flat (dense_from n 0 words.now)) }
{
    let (pairs, _) = words.as_chunks::<2>();
    let mut o = 0;
    for (i, &[re, im]) in pairs.iter().enumerate() {
        if is_wanted(amplitude(re, im)) {
            put_wanted(re, im, i, n, store, o);
            o += 1;
        }
    }
}

// The wanted pairs, `count` of them, as part 0 of the store that becomes front, where it has room
// for them.
fn write_dense(
    width: usize,
    words: &[u64],
    mark: Side,
    count: usize,
    store: &mut [u64],
) -> Result<State, Refusal>
    requires width_nonzero { (0 < width) × (width < 63) }
    requires words_value { all finite_word words.now ≡ true }
    requires count_value { count ≡ length (dense_from width 0 words.now) }
    ensures value { result ≡ (dense_over width words.now mark
        store.old []).answer }
    ensures store_after { store.new ≡ (dense_over width words.now mark
        store.old []).front }
{
    if store.len() / (width + 2) < count {
        return Err(Refusal::Full);
    }
    write_wanted(words, width, store);
    Ok(State {
        width,
        front: mark,
        n0: count,
        n1: 0,
        tag: None,
    })
}

// The pairs of a list, re and im, as a state in the store that the mark names: those with norm_inf
// of EPS or more, each under its index. The other store stays.
pub fn import_dense(
    width: usize,
    words: &[u64],
    mark: Side,
    left: &mut [u64],
    right: &mut [u64],
) -> Result<State, Refusal>
    ensures right_after { record { answer = result; left = left.new; right = right.new }
        ≡ dense_call width words.now mark left.old right.old }
    ensures result_value { made-response result ≡ dense_response width words.now mark
        left.old right.old }
{
    if !keys::is_width(width) {
        return Err(Refusal::Width);
    }
    let count = count_wanted(words)?;
    match mark {
        Side::Left => write_dense(width, words, mark, count, left),
        Side::Right => write_dense(width, words, mark, count, right),
    }
}
