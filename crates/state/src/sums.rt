// The sums of squares before a measurement (`premeasure`, statevector.rs).
ghost use Rattle.std.specs.Prelude.{◌≡◌, true, false, ◌/◌, ◌<◌};
ghost use Rattle.keys.specs.Lists.{All};
ghost use Rattle.merge.specs.Records.{finite_record};
ghost use Rattle.merge.specs.Sorting.{side};
ghost use Rattle.merge.specs.Walks.{records_left};
ghost use Rattle.state.specs.Sums.{sum_from, plus_zero, sums, premeasure_response, premeasure_in, premeasure_call};

use crate::Squares;
use merge::Records;
use statevector::{Refusal, State};

// Over a part's records, from +0 and in their order.
fn sum_part(part: Records, q: usize) -> Squares
    requires q_bound { q / 64 < part.n }
    requires all { All (λ r. finite_record part.n r ≡ true) (records_left part) }
    ensures clear_value { result.clear ≡ sum_from part.entry.n plus_zero
        (side part.entry.n q false (records_left part.entry)) }
    ensures set_value { result.set ≡ sum_from part.entry.n plus_zero
        (side part.entry.n q true (records_left part.entry)) }
{
    let mut clear = 0.0;
    let mut set = 0.0;
    for r in part {
        let square = r.amplitude().norm2();
        if r.bit(q) {
            set += square;
        } else {
            clear += square;
        }
    }
    Squares { clear, set }
}

// Over a front store.
fn premeasure_front(s: State, q: usize, front: &[u64]) -> Result<Squares, Refusal>
    ensures { result ≡ premeasure_in s q front.now }
{
    statevector::test_state(s, statevector::test_qubit(s, q), Ok(()), front)?;
    let a = sum_part(Records::of(front, 0, s.n0, s.width), q);
    let b = sum_part(Records::of(front, s.n0, s.n0 + s.n1, s.width), q);
    Ok(Squares {
        clear: a.clear + b.clear,
        set: a.set + b.set,
    })
}

// The sums for outcomes 0 and 1: over part 0, likewise over part 1, then the two added.
#[tactic(auto, unfolding(crate::specs::Sums::premeasure_call), using(crate::proofs::Calling::responses))]
pub fn premeasure(s: State, q: usize, left: &[u64], right: &[u64]) -> Result<Squares, Refusal>
    ensures value { result ≡ premeasure_call s q left.now right.now }
    ensures result_value { sums result ≡ premeasure_response s q left.now right.now }
{
    premeasure_front(s, q, s.front.store(left, right))
}
