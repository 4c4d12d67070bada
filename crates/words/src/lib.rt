// States and answers as words of 64 bits: how calls at the C boundary read them and give them back.
#![tactic(auto)]

mod errors;

ghost use Rattle.std.specs.Prelude.{◌≡◌, [], ◌∷◌, length};
ghost use Rattle.std.proofs.lemmas.List.Edits.{sets};
ghost use Rattle.amplitudes.specs.Readings.{read_gate};
ghost use Rattle.words.specs.Words.{state_size, gate_size, side_of, side_word, tag_of, state_of, state_words, amplitude_words, sum_words, change_words, order_word, comparison_words, Reads};
ghost use Rattle.words.specs.NotNan.{FoundNotNan, SumsNotNan};

use amplitudes::{Complex, U4};
pub use errors::{CallError, answer_number};
use keys::Compared;
use state::{Side, Squares, State};
use std::cmp::Ordering;

// How many words a state has, a gate, and the results of a gate that is done: none as yet.
pub const STATE: usize = 6;

pub const GATE: usize = 8;

pub const GATE_RESULTS: usize = 0;

// That a lent slice has the length that it is to have.
pub fn expect_len(words: &[u64], n: usize) -> Result<(), CallError>
    ensures { Reads result n words.now tt }
{
    if words.len() == n {
        Ok(())
    } else {
        Err(CallError::WrongLength)
    }
}

// ---- a state

pub fn side_of(w: u64) -> Side
    ensures { result ≡ side_of w }
{
    if w == 0 { Side::Left } else { Side::Right }
}

pub fn side_word(s: Side) -> u64
    ensures { result ≡ side_word s }
{
    match s {
        Side::Left => 0,
        Side::Right => 1,
    }
}

// The qubit q, or none where the flag is 0: a state's tag, and what a comparison leaves out.
pub fn flagged(flag: u64, q: usize) -> Option<usize>
    ensures { result ≡ tag_of flag q }
{
    (flag != 0).then_some(q)
}

// The state that its words stand for.
#[tactic(auto, unfolding(crate::specs::Words::state_of))]
pub fn state_of(words: &[u64]) -> State
    requires { length words.now ≡ state_size }
    ensures { result ≡ state_of words.now }
{
    State {
        width: words[0] as usize,
        front: side_of(words[1]),
        n0: words[2] as usize,
        n1: words[3] as usize,
        tag: flagged(words[4], words[5] as usize),
    }
}

// The state that lent words stand for, where they are as many as a state has.
pub fn read_state(words: &[u64]) -> Result<State, CallError>
    ensures { Reads result state_size words.now (state_of words.now) }
{
    expect_len(words, STATE)?;
    Ok(state_of(words))
}

pub fn state_words(s: State) -> [u64; STATE]
    ensures { result ≡ state_words s }
{
    [
        s.width as u64,
        side_word(s.front),
        s.n0 as u64,
        s.n1 as u64,
        u64::from(s.tag.is_some()),
        s.tag.unwrap_or(0) as u64,
    ]
}

// ---- a gate

// The gate of lent words, eight patterns.
pub fn read_gate(words: &[u64]) -> Result<U4, CallError>
    ensures { Reads result gate_size words.now (read_gate words.now) }
{
    expect_len(words, GATE)?;
    Ok(amplitudes::read_gate(words))
}

// ---- the words of what a call gives

// Whether an amplitude was found, and its patterns: it is no NaN.
pub fn found_words(found: Option<Complex>) -> [u64; 3]
    requires { FoundNotNan found }
    ensures { result ≡ amplitude_words found }
{
    match found {
        Some(a) => [1, amplitudes::to_bits(a.re), amplitudes::to_bits(a.im)],
        None => [0; 3],
    }
}

// The patterns of sums: they may be infinite, and are no NaN.
pub fn sum_words(sums: Squares) -> [u64; 2]
    requires { SumsNotNan sums }
    ensures { result ≡ sum_words (sums.clear, sums.set) }
{
    [
        amplitudes::to_bits(sums.clear),
        amplitudes::to_bits(sums.set),
    ]
}

// A change in two's complement.
pub fn change_words(change: i64) -> [u64; 1]
    ensures { result ≡ change_words change }
{
    [change.cast_unsigned()]
}

// Less is -1 in two's complement.
fn order_word(o: Ordering) -> u64
    ensures { result ≡ order_word o }
{
    match o {
        Ordering::Less => u64::MAX,
        Ordering::Equal => 0,
        Ordering::Greater => 1,
    }
}

pub fn comparison_words(c: Compared) -> [u64; 2]
    ensures { result ≡ comparison_words c }
{
    [order_word(c.order), c.pairs as u64]
}

// A part of a store: which store, and how many of its first words.
pub fn part_words(front: Side, words: usize) -> [u64; 2]
    ensures { result ≡ side_word front ∷ words ∷ [] }
{
    [side_word(front), words as u64]
}

// The words of a state or of results over those of a slice.
pub fn put<const N: usize>(words: [u64; N], out: &mut [u64])
    requires { length out.old ≡ N }
    ensures { out.new ≡ sets out.old 0 words.entry }
{
    out.copy_from_slice(&words);
}
