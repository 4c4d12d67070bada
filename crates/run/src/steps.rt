// A step: read from ten words, its words read as a call, and the call made.
ghost use Rattle.std.specs.Prelude.{◌≡◌, ◌+◌, ◌≤◌, length, cond, eqb, Err};
ghost use Rattle.statevector.specs.declared.Refusal.TheVariants as no;
ghost use Rattle.run.specs.Answers.{taken_response, step_response, list_step_response};
ghost use Rattle.run.specs.Reading.{read_call};
ghost use Rattle.run.specs.Steps.{step_from, taken, by_call, step_of, list_step_of};

use crate::{Step, Taken};
use amplitudes::U4;
use state::{Refusal, Squares, State};

// The call that a step stands for.
#[derive(Clone, Copy)]
enum StepCall {
    Gate(U4),
    Measure(bool, f64),
    Premeasure,
}

// Reads the step of the ten words from word `at` on.
#[tactic(auto, unfolding(crate::specs::Steps::step_from))]
pub fn read_step(words: &[u64], at: usize) -> Step
    requires { at + 10 ≤ length words.now }
    ensures { result ≡ step_from words.now at }
{
    let mut rest = [0; 8];
    rest.copy_from_slice(&words[at + 2..at + 10]);
    Step {
        kind: words[at],
        qubit: words[at + 1],
        words: rest,
    }
}

// The call of a step: eight patterns of a gate; an outcome 0 or 1, a scale and six zeros; eight
// zeros.
#[tactic(auto, unfolding(crate::specs::Steps::call_by, crate::specs::Steps::measure_by, crate::specs::Steps::zeros))]
fn read_call(step: Step) -> Result<StepCall, Refusal>
    ensures { result ≡ read_call step }
{
    let words = step.words;
    match (step.kind, words) {
        (1, _) => Ok(StepCall::Gate(amplitudes::read_gate(&words))),
        (2, [outcome @ (0 | 1), scale, 0, 0, 0, 0, 0, 0]) => {
            Ok(StepCall::Measure(outcome == 1, amplitudes::read_float(scale)))
        }
        (3, [0, 0, 0, 0, 0, 0, 0, 0]) => Ok(StepCall::Premeasure),
        _ => Err(Refusal::Step),
    }
}

// The call of a step of a list, where no step is a premeasure.
#[tactic(auto, unfolding(crate::specs::Steps::call_by))]
fn read_list_call(step: Step) -> Result<StepCall, Refusal>
    ensures { result ≡ cond (eqb step.kind 3) (Err no.Step) (read_call step) }
{
    match read_call(step)? {
        StepCall::Premeasure => Err(Refusal::Step),
        call => Ok(call),
    }
}

// Makes a call, if it is one, on state s: the state after it, and the sums of a premeasure.
fn make_call(
    s: State,
    q: usize,
    call: Result<StepCall, Refusal>,
    left: &mut [u64],
    right: &mut [u64],
) -> Result<(State, Option<Squares>), Refusal>
    ensures { record { answer = taken (λ made. made) s result; left = left.new; right = right.new }
        ≡ by_call s q call left.old right.old }
{
    match call? {
        StepCall::Gate(g) => {
            let gated = state::perform_u4(s, q, g, left, right)?;
            Ok((gated.state, None))
        }
        StepCall::Measure(v, scale) => {
            let after = state::measure(s, q, v, scale, left, right)?;
            Ok((after, None))
        }
        StepCall::Premeasure => {
            let sums = state::premeasure(s, q, left, right)?;
            Ok((s, Some(sums)))
        }
    }
}

// What a call comes to as a step: after a refusal the state is the one before it.
fn take_call(
    s: State,
    q: usize,
    call: Result<StepCall, Refusal>,
    left: &mut [u64],
    right: &mut [u64],
) -> Taken
    ensures { record { answer = result; left = left.new; right = right.new }
        ≡ by_call s q call left.old right.old }
{
    match make_call(s, q, call, left, right) {
        Ok((state, sums)) => Taken {
            state,
            answer: Ok(sums),
        },
        Err(r) => Taken {
            state: s,
            answer: Err(r),
        },
    }
}

// One step of kind 1, 2 or 3. After a refusal the state is the one before it, and the stores are
// what the step's call leaves.
pub fn take_step(s: State, step: Step, left: &mut [u64], right: &mut [u64]) -> Taken
    ensures right_after { record { answer = result; left = left.new; right = right.new }
        ≡ step_of s step left.old right.old }
    ensures result_value { taken_response result ≡ step_response s step left.old
        right.old }
{
    take_call(s, step.qubit as usize, read_call(step), left, right)
}

// A step of a list: kind 3 gets 10 there.
pub fn list_step(s: State, step: Step, left: &mut [u64], right: &mut [u64]) -> Taken
    ensures right_after { record { answer = result; left = left.new; right = right.new }
        ≡ list_step_of s step left.old right.old }
    ensures result_value { taken_response result ≡ list_step_response s step left.old
        right.old }
{
    take_call(s, step.qubit as usize, read_list_call(step), left, right)
}
