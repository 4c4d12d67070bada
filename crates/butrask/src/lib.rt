// The C library: numbers and slices only, nothing required of the caller. Each function is a call
// of `calls`, or the run of `step_lists`, by the name that C links; host/include/butrask.h says the
// same for C.
#![tactic(auto)]

ghost use Rattle.std.specs.Prelude.{◌≡◌, [], length};
ghost use Rattle.std.proofs.lemmas.List.Edits.{sets};
ghost use Rattle.words.specs.Words.{answer_number};
ghost use Rattle.calls.specs.Calls.{check_at, lookup_at, export_at, premeasure_at, collapse_at, forecast_at, compare_at, fresh_at, gate_at, measure_at, dense_at};
ghost use Rattle.step_lists.specs.Lists.{run_at};
ghost use Rattle.butrask.specs.Weights.{weight_words, WeightNotNan, weight_at};

use words::{CallError, answer_number};

// Whether a state is one that every call goes on with.
#[unsafe(no_mangle)]
pub extern "C" fn butrask_check(state: &[u64], left: &[u64], right: &[u64]) -> u64
    ensures { result ≡ check_at state.now left.now right.now }
{
    answer_number(calls::check(state, left, right))
}

// The amplitude at a key: three words, whether there is one, re and im.
#[unsafe(no_mangle)]
pub extern "C" fn butrask_lookup(
    state: &[u64],
    key: &[u64],
    left: &[u64],
    right: &[u64],
    out: &mut [u64],
) -> u64
    ensures { record { answer = result; out = out.new }
        ≡ lookup_at state.now key.now left.now right.now
        out.old }
{
    answer_number(calls::lookup(state, key, left, right, out))
}

// Where the front records are: two words, the store and how many of its first words they are; 0
// words of a state that a check refuses.
#[unsafe(no_mangle)]
pub extern "C" fn butrask_export<'a>(
    state: &[u64],
    left: &'a [u64],
    right: &'a [u64],
    out: &mut [u64],
) -> u64
    ensures { record { answer = result; out = out.new }
        ≡ export_at state.now left.now right.now
        out.old }
{
    answer_number(calls::export(state, left, right, out))
}

// The sums for outcomes 0 and 1: two patterns.
#[unsafe(no_mangle)]
pub extern "C" fn butrask_premeasure(
    state: &[u64],
    q: usize,
    left: &[u64],
    right: &[u64],
    out: &mut [u64],
) -> u64
    ensures { record { answer = result; out = out.new }
        ≡ premeasure_at state.now q left.now right.now
        out.old }
{
    answer_number(calls::premeasure(state, q, left, right, out))
}

// The estimate at entry i: one word, in two's complement.
#[unsafe(no_mangle)]
pub extern "C" fn butrask_collapse_delta(
    state: &[u64],
    q: usize,
    gate: &[u64],
    i: usize,
    left: &[u64],
    right: &[u64],
    out: &mut [u64],
) -> u64
    ensures { record { answer = result; out = out.new }
        ≡ collapse_at state.now q gate.now i left.now
        right.now out.old }
{
    answer_number(calls::collapse_delta(state, q, gate, i, left, right, out))
}

// The forecast: one word, in two's complement.
#[unsafe(no_mangle)]
pub extern "C" fn butrask_forecast(
    state: &[u64],
    q: usize,
    gate: &[u64],
    left: &[u64],
    right: &[u64],
    out: &mut [u64],
) -> u64
    ensures { record { answer = result; out = out.new }
        ≡ forecast_at state.now q gate.now left.now
        right.now out.old }
{
    answer_number(calls::forecast(state, q, gate, left, right, out))
}

// How a key stands to another of the same width, with a qubit left out of both unless the flag is
// 0: two words, the order, -1 (less), 0 or 1 in two's complement, and how many pairs of words were
// compared.
#[unsafe(no_mangle)]
pub extern "C" fn butrask_compare(
    width: usize,
    flag: u64,
    q: usize,
    a: &[u64],
    b: &[u64],
    out: &mut [u64],
) -> u64
    ensures { record { answer = result; out = out.new }
        ≡ compare_at width flag q a.now b.now out.old }
{
    answer_number(calls::compare(width, flag, q, a, b, out))
}

// A fresh state in the left store.
#[unsafe(no_mangle)]
pub extern "C" fn butrask_fresh(width: usize, state: &mut [u64], left: &mut [u64]) -> u64
    ensures { record {
      answer = result;
      state = state.new;
      left = left.new;
      right = [];
    } ≡ fresh_at width state.old left.old [] }
{
    answer_number(calls::fresh(width, state, left))
}

// A gate of eight patterns on qubit q. Its results are no words as yet.
#[unsafe(no_mangle)]
pub extern "C" fn butrask_perform_u4(
    state: &mut [u64],
    q: usize,
    gate: &[u64],
    left: &mut [u64],
    right: &mut [u64],
    out: &mut [u64],
) -> u64
    ensures { record {
      answer = result;
      state = state.new;
      left = left.new;
      right = right.new;
      out = out.new;
    }
        ≡ gate_at state.old q gate.now left.old right.old
        out.old }
{
    answer_number(calls::perform_u4(state, q, gate, left, right, out))
}

// Measures qubit q: an outcome, 0 or 1, and the pattern of a scale.
#[unsafe(no_mangle)]
pub extern "C" fn butrask_measure(
    state: &mut [u64],
    q: usize,
    outcome: u64,
    scale: u64,
    left: &mut [u64],
    right: &mut [u64],
) -> u64
    ensures { record {
      answer = result;
      state = state.new;
      left = left.new;
      right = right.new;
    } ≡ measure_at state.old q outcome scale
        left.old right.old }
{
    answer_number(calls::measure(state, q, outcome, scale, left, right))
}

// The pairs re, im of a list as a state in the store that the mark names.
#[unsafe(no_mangle)]
pub extern "C" fn butrask_import_dense(
    width: usize,
    dense: &[u64],
    front: u64,
    state: &mut [u64],
    left: &mut [u64],
    right: &mut [u64],
) -> u64
    ensures { record {
      answer = result;
      state = state.new;
      left = left.new;
      right = right.new;
    } ≡ dense_at width dense.now front
        state.old left.old right.old }
{
    answer_number(calls::import_dense(width, dense, front, state, left, right))
}

// Runs a list of steps of kinds 1 and 2: out, one word, how many were done; the state is the one
// after them, also where the next was refused.
#[unsafe(no_mangle)]
pub extern "C" fn butrask_run(
    state: &mut [u64],
    steps: &[u64],
    left: &mut [u64],
    right: &mut [u64],
    out: &mut [u64],
) -> u64
    ensures { record {
      answer = result;
      state = state.new;
      left = left.new;
      right = right.new;
      out = out.new;
    }
        ≡ run_at state.old steps.now left.old right.old
        out.old }
{
    answer_number(step_lists::run_words(state, steps, left, right, out))
}

// Whether a gate has a weight, and the weight's pattern: it is no NaN.
fn weight_words(w: Option<f64>) -> [u64; 2]
    requires { WeightNotNan w }
    ensures { result ≡ weight_words w }
{
    match w {
        Some(x) => [1, amplitudes::to_bits(x)],
        None => [0; 2],
    }
}

#[tactic(auto, using(crate::specs::Laws::weight_laws), unfolding(crate::specs::Weights::weight_at))]
fn gate_weight(gate: &[u64], out: &mut [u64]) -> Result<(), CallError>
    ensures { record { answer = answer_number result; out = out.new }
        ≡ weight_at gate.now out.old }
{
    let g = words::read_gate(gate)?;
    words::expect_len(out, 2)?;
    words::put(weight_words(exact::gate_weight(g)), out);
    Ok(())
}

// The weight of a gate that the exact table covers: whole parts of at most 16 in size, columns that
// are orthogonal and of one squared length, which is the weight. Two words: 1 and the weight's
// pattern, or 0 and 0 for any other gate.
#[unsafe(no_mangle)]
pub extern "C" fn butrask_gate_weight(gate: &[u64], out: &mut [u64]) -> u64
    ensures { record { answer = result; out = out.new }
        ≡ weight_at gate.now out.old }
{
    answer_number(gate_weight(gate, out))
}
