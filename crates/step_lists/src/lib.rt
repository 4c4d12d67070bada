// A run of steps that stand in lent words, ten to a step (SPECIFICATION 8.1). Words left over are a
// step too, refused with 10.
#![tactic(auto)]

ghost use Rattle.std.specs.Prelude.{◌≡◌};
ghost use Rattle.run.specs.Run.{run_of};
ghost use Rattle.words.specs.Words.{answer_number};
ghost use Rattle.step_lists.specs.Lists.{steps_of, run_at};

use run::Ran;
use state::{Refusal, State};
use words::CallError;

// The steps in order, to the first that is refused, each as a run of its own; words left over are
// one more, which is refused. A list of none has its state tested.
#[tactic(auto, using(crate::proofs::Turns::turns))]
fn run_list(s: State, words: &[u64], left: &mut [u64], right: &mut [u64]) -> Ran
    ensures { record { answer = result; left = left.new; right = right.new }
        ≡ run_of (steps_of words.now) s left.old right.old }
{
    if words.is_empty() {
        return run::run(&[], s, left, right);
    }
    let (tens, stray) = words.as_chunks::<10>();
    let mut at = s;
    for (done, ten) in tens.iter().enumerate() {
        let ran = run::run(&[run::read_step(ten, 0)], at, left, right);
        if ran.stopped.is_err() {
            return Ran { done, ..ran };
        }
        at = ran.state;
    }
    Ran {
        done: tens.len(),
        state: at,
        stopped: if stray.is_empty() {
            Ok(())
        } else {
            Err(Refusal::Step)
        },
    }
}

// Runs a list of steps of kinds 1 and 2: out, one word, how many were done; the state is the one
// after them, also where the next was refused.
#[tactic(auto, unfolding(crate::specs::Lists::run_at))]
pub fn run_words(
    state: &mut [u64],
    steps: &[u64],
    left: &mut [u64],
    right: &mut [u64],
    out: &mut [u64],
) -> Result<(), CallError>
    ensures { record {
      answer = answer_number result;
      state = state.new;
      left = left.new;
      right = right.new;
      out = out.new;
    }
        ≡ run_at state.old steps.now left.old right.old
        out.old }
{
    let s = words::read_state(state)?;
    words::expect_len(out, 1)?;
    let ran = run_list(s, steps, left, right);
    words::put(words::state_words(ran.state), state);
    out[0] = ran.done as u64;
    ran.stopped?;
    Ok(())
}
