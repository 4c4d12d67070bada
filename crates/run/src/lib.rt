// Runs: a lent list of steps over a state in two lent stores, and the single step (SPECIFICATION
// 8).
#![tactic(auto)]

mod steps;

ghost use Rattle.std.specs.Prelude.{◌≡◌};
ghost use Rattle.run.specs.Run.{run_of};

use state::{Refusal, Squares, State};
use steps::list_step;
pub use steps::{read_step, take_step};

// Ten words: which call (1 gate, 2 measure, 3 premeasure), its qubit, and what else the call takes.
#[derive(Clone, Copy)]
pub struct Step {
    pub kind: u64,
    pub qubit: u64,
    pub words: [u64; 8],
}

// The state after a step, which is the one before it where it was refused, and its answer: the sums
// of a premeasure, and nothing more of the other calls. `answer_response` of specs/ has the number
// (SPECIFICATION 10.1) and the values of each.
#[derive(Clone, Copy)]
pub struct Taken {
    pub state: State,
    pub answer: Result<Option<Squares>, Refusal>,
}

// The number of steps done, the state after them, and what stopped the run, if anything did.
#[derive(Clone, Copy)]
pub struct Ran {
    pub done: usize,
    pub state: State,
    pub stopped: Result<(), Refusal>,
}

// The steps in order, to the first that is refused. Only where there is none is the state tested: a
// step tests it itself, after 10.
#[tactic(auto, using(crate::proofs::Turns::turns))]
pub fn run(steps: &[Step], s: State, left: &mut [u64], right: &mut [u64]) -> Ran
    ensures { record { answer = result; left = left.new; right = right.new }
        ≡ run_of steps.now s left.old right.old }
{
    if steps.is_empty() {
        return Ran {
            done: 0,
            state: s,
            stopped: state::check(s, left, right),
        };
    }
    let mut at = s;
    for (done, step) in steps.iter().enumerate() {
        let taken = list_step(at, *step, left, right);
        at = taken.state;
        if let Err(r) = taken.answer {
            return Ran {
                done,
                state: at,
                stopped: Err(r),
            };
        }
    }
    Ran {
        done: steps.len(),
        state: at,
        stopped: Ok(()),
    }
}
