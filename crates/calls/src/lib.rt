// The calls of the state on lent words and without copying, one function a call. A state's words are
// those of `words`; the error is a refusal (SPECIFICATION 10.1), or that a state, a gate or a slice
// for results has the wrong length. A state's words and the words for results change only where the
// call was done.
#![tactic(auto)]

ghost use Rattle.std.specs.Prelude.{◌≡◌, []};
ghost use Rattle.words.specs.Words.{answer_number};
ghost use Rattle.calls.specs.Calls.{check_at, lookup_at, export_at, premeasure_at, collapse_at, forecast_at, compare_at, fresh_at, gate_at, measure_at, dense_at};

use state::Refusal;
use words::{CallError, GATE_RESULTS, STATE};

// Whether a state is one that every call goes on with.
#[tactic(auto, unfolding(crate::specs::Calls::check_at))]
pub fn check(state: &[u64], left: &[u64], right: &[u64]) -> Result<(), CallError>
    ensures { answer_number result ≡ check_at state.now left.now right.now }
{
    let s = words::read_state(state)?;
    state::check(s, left, right)?;
    Ok(())
}

// The amplitude at a key: three words, whether there is one, re and im.
#[tactic(auto, using(crate::proofs::Parts::lookups), unfolding(crate::specs::Calls::lookup_at))]
pub fn lookup(
    state: &[u64],
    key: &[u64],
    left: &[u64],
    right: &[u64],
    out: &mut [u64],
) -> Result<(), CallError>
    ensures { record { answer = answer_number result; out = out.new }
        ≡ lookup_at state.now key.now left.now right.now
        out.old }
{
    let s = words::read_state(state)?;
    words::expect_len(out, 3)?;
    let found = state::lookup(s, key, left, right)?;
    words::put(words::found_words(found), out);
    Ok(())
}

// Where the front records are: two words, the store and how many of its first words they are; 0
// words of a state that a check refuses.
#[tactic(auto, unfolding(crate::specs::Calls::export_at))]
pub fn export<'a>(
    state: &[u64],
    left: &'a [u64],
    right: &'a [u64],
    out: &mut [u64],
) -> Result<(), CallError>
    ensures { record { answer = answer_number result; out = out.new }
        ≡ export_at state.now left.now right.now
        out.old }
{
    let s = words::read_state(state)?;
    words::expect_len(out, 2)?;
    let part = state::export(s, left, right);
    words::put(words::part_words(s.front, part.len()), out);
    Ok(())
}

// The sums for outcomes 0 and 1: two patterns.
#[tactic(auto, unfolding(crate::specs::Calls::premeasure_at))]
pub fn premeasure(
    state: &[u64],
    q: usize,
    left: &[u64],
    right: &[u64],
    out: &mut [u64],
) -> Result<(), CallError>
    ensures { record { answer = answer_number result; out = out.new }
        ≡ premeasure_at state.now q left.now right.now
        out.old }
{
    let s = words::read_state(state)?;
    words::expect_len(out, 2)?;
    let sums = state::premeasure(s, q, left, right)?;
    words::put(words::sum_words(sums), out);
    Ok(())
}

// The estimate at entry i: one word, in two's complement.
#[tactic(auto, using(crate::proofs::Parts::estimates), unfolding(crate::specs::Calls::collapse_at))]
pub fn collapse_delta(
    state: &[u64],
    q: usize,
    gate: &[u64],
    i: usize,
    left: &[u64],
    right: &[u64],
    out: &mut [u64],
) -> Result<(), CallError>
    ensures { record { answer = answer_number result; out = out.new }
        ≡ collapse_at state.now q gate.now i left.now
        right.now out.old }
{
    let s = words::read_state(state)?;
    let g = words::read_gate(gate)?;
    words::expect_len(out, 1)?;
    let change = state::collapse_delta(s, q, g, i, left, right)?;
    words::put(words::change_words(change), out);
    Ok(())
}

// The forecast: one word, in two's complement.
#[tactic(auto, using(crate::proofs::Parts::estimates), unfolding(crate::specs::Calls::forecast_at))]
pub fn forecast(
    state: &[u64],
    q: usize,
    gate: &[u64],
    left: &[u64],
    right: &[u64],
    out: &mut [u64],
) -> Result<(), CallError>
    ensures { record { answer = answer_number result; out = out.new }
        ≡ forecast_at state.now q gate.now left.now
        right.now out.old }
{
    let s = words::read_state(state)?;
    let g = words::read_gate(gate)?;
    words::expect_len(out, 1)?;
    let change = state::forecast(s, q, g, left, right)?;
    words::put(words::change_words(change), out);
    Ok(())
}

// How a key stands to another of the same width, with qubit q left out of both unless the flag is
// 0: two words, the order, -1 (less), 0 or 1 in two's complement, and how many pairs of words were
// compared. It needs no state.
#[tactic(auto, unfolding(crate::specs::Calls::compare_at))]
pub fn compare(
    width: usize,
    flag: u64,
    q: usize,
    a: &[u64],
    b: &[u64],
    out: &mut [u64],
) -> Result<(), CallError>
    ensures { record { answer = answer_number result; out = out.new }
        ≡ compare_at width flag q a.now b.now out.old }
{
    words::expect_len(out, 2)?;
    let compared = state::compare(width, words::flagged(flag, q), a, b)?;
    words::put(words::comparison_words(compared), out);
    Ok(())
}

// A fresh state in the left store.
#[tactic(auto, unfolding(crate::specs::Calls::fresh_at))]
pub fn fresh(width: usize, state: &mut [u64], left: &mut [u64]) -> Result<(), CallError>
    ensures { record {
      answer = answer_number result;
      state = state.new;
      left = left.new;
      right = [];
    } ≡ fresh_at width state.old left.old [] }
{
    words::expect_len(state, STATE)?;
    let s = state::fresh(width, left)?;
    words::put(words::state_words(s), state);
    Ok(())
}

// A gate of eight patterns on qubit q. Its results are no words as yet.
#[tactic(auto, using(crate::proofs::Parts::making), unfolding(crate::specs::Calls::gate_at))]
pub fn perform_u4(
    state: &mut [u64],
    q: usize,
    gate: &[u64],
    left: &mut [u64],
    right: &mut [u64],
    out: &mut [u64],
) -> Result<(), CallError>
    ensures { record {
      answer = answer_number result;
      state = state.new;
      left = left.new;
      right = right.new;
      out = out.new;
    }
        ≡ gate_at state.old q gate.now left.old right.old
        out.old }
{
    let s = words::read_state(state)?;
    let g = words::read_gate(gate)?;
    words::expect_len(out, GATE_RESULTS)?;
    let gated = state::perform_u4(s, q, g, left, right)?;
    words::put(words::state_words(gated.state), state);
    Ok(())
}

// Measures qubit q: an outcome, 0 or 1, and the pattern of a scale.
#[tactic(auto, using(crate::proofs::Parts::making), unfolding(crate::specs::Calls::measure_at))]
pub fn measure(
    state: &mut [u64],
    q: usize,
    outcome: u64,
    scale: u64,
    left: &mut [u64],
    right: &mut [u64],
) -> Result<(), CallError>
    ensures { record {
      answer = answer_number result;
      state = state.new;
      left = left.new;
      right = right.new;
    } ≡ measure_at state.old q outcome scale
        left.old right.old }
{
    let s = words::read_state(state)?;
    if outcome > 1 {
        return Err(CallError::Refused(Refusal::Step));
    }
    let x = amplitudes::read_float(scale);
    let after = state::measure(s, q, outcome == 1, x, left, right)?;
    words::put(words::state_words(after), state);
    Ok(())
}

// The pairs re, im of a list as a state in the store that the mark names.
#[tactic(auto, unfolding(crate::specs::Calls::dense_at))]
pub fn import_dense(
    width: usize,
    dense: &[u64],
    front: u64,
    state: &mut [u64],
    left: &mut [u64],
    right: &mut [u64],
) -> Result<(), CallError>
    ensures { record {
      answer = answer_number result;
      state = state.new;
      left = left.new;
      right = right.new;
    } ≡ dense_at width dense.now front
        state.old left.old right.old }
{
    words::expect_len(state, STATE)?;
    let s = state::import_dense(width, dense, words::side_of(front), left, right)?;
    words::put(words::state_words(s), state);
    Ok(())
}
