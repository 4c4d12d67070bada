// A check, a fresh state, a lookup and an export.
ghost use Rattle.std.specs.Prelude.{◌≡◌, true, ◌+◌, ◌*◌, ◌≤◌, ◌<◌, length, None};
ghost use Rattle.keys.specs.Lists.{All};
ghost use Rattle.merge.specs.Records.{part, entries, at, finite_record};
ghost use Rattle.merge.specs.Sorting.{Rising, sort_key};
ghost use Rattle.statevector.specs.Answers.{tested, made-response, check_response};
ghost use Rattle.state.specs.Lookup.{found-response, lookup_response, lookup_in, lookup_call, export_in, export_call};
ghost use Rattle.state.specs.Fresh.{fresh_response, fresh_call};
ghost use Rattle.statevector.specs.States.{front_of};
ghost use Rattle.statevector.specs.Tests.{check_call};

use amplitudes::Complex;
use merge::Record;
use statevector::{Refusal, Side, State};

// Whether a state is one that every call goes on with, or the number that it is refused with.
pub fn check(s: State, left: &[u64], right: &[u64]) -> Result<(), Refusal>
    ensures value { result ≡ check_call s left.now right.now }
    ensures result_value { tested result ≡ check_response s left.now right.now }
{
    statevector::test_state(s, Ok(()), Ok(()), s.front.store(left, right))
}

// A fresh state in the left store: key 0 with amplitude 1, tag 0. The rest of the store stays.
pub fn fresh(width: usize, left: &mut [u64]) -> Result<State, Refusal>
    ensures left_after { record { answer = result; left = left.new }
        ≡ fresh_call width left.old }
    ensures result_value { made-response result ≡ fresh_response width left.old }
{
    if !keys::is_width(width) {
        return Err(Refusal::Width);
    }
    let im = width + 1;
    if left.len() <= im {
        return Err(Refusal::Full);
    }
    keys::put_index(&mut left[..width], 0);
    left[width] = 0x3ff0_0000_0000_0000;
    left[im] = 0;
    Ok(State {
        width,
        front: Side::Left,
        n0: 1,
        n1: 0,
        tag: Some(0),
    })
}

// The amplitude at a key among the rising records from .. to.
fn found_in(ws: &[u64], from: usize, to: usize, n: usize, key: &[u64]) -> Option<Complex>
    requires from_le_to { (from ≤ to) × (to * (n + 2) ≤ length ws.now) }
    requires key_len { length key.now ≡ n }
    requires rising { Rising (sort_key n None) (part n ws.now from to)
        × All (λ r. finite_record n r ≡ true) (part n ws.now from to) }
    ensures { result ≡ at key.now (entries n (part n ws.now from to)) }
{
    let r = merge::find(ws, from, to, n, key)?;
    Some(Record::nth(ws, r, n).amplitude())
}

// The amplitude at a key, or absent, in the front store: part 0, then part 1.
fn lookup_front(s: State, key: &[u64], front: &[u64]) -> Result<Option<Complex>, Refusal>
    ensures { result ≡ lookup_in s key.now front.now }
{
    statevector::test_state(s, Ok(()), Ok(()), front)?;
    let n = s.width;
    let n0 = s.n0;
    let all = n0 + s.n1;
    if key.len() != n {
        return Err(Refusal::Length);
    }
    match found_in(front, 0, n0, n, key) {
        Some(a) => Ok(Some(a)),
        None => Ok(found_in(front, n0, all, n, key)),
    }
}

// The amplitude at a key, or absent.
#[tactic(auto, unfolding(crate::specs::Lookup::lookup_call), using(crate::proofs::Calling::responses))]
pub fn lookup(
    s: State,
    key: &[u64],
    left: &[u64],
    right: &[u64],
) -> Result<Option<Complex>, Refusal>
    ensures value { result ≡ lookup_call s key.now left.now
        right.now }
    ensures result_value { found-response result ≡ lookup_response s key.now left.now
        right.now }
{
    lookup_front(s, key, s.front.store(left, right))
}

// The front records themselves, a part of the front store; of a refused state an empty part.
fn export_front(s: State, front: &[u64]) -> &[u64]
    ensures result_value { result.now ≡ export_in s front.now }
    ensures ref_ptr_value { result.ref_ptr ≡ front.entry.ref_ptr }
{
    if statevector::test_state(s, Ok(()), Ok(()), front).is_err() {
        return &front[..0];
    }
    let all = s.n0 + s.n1;
    let size = s.width + 2;
    let e = all * size;
    &front[..e]
}

// The front records themselves, a part of whichever store holds them.
#[tactic(auto, unfolding(crate::specs::Lookup::export_call))]
pub fn export<'a>(s: State, left: &'a [u64], right: &'a [u64]) -> &'a [u64]
    ensures result_value { result.now ≡ export_call s left.now right.now }
    ensures ref_ptr_value { result.ref_ptr ≡ front_of s.front left.entry.ref_ptr right.entry.ref_ptr }
{
    export_front(s, s.front.store(left, right))
}
