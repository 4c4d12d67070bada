// A comparison of two keys as a call of its own (`Ord` of bitset.rs): their order, with a qubit
// left out of both or none, and how many pairs of words were compared. It needs no state.
#![tactic(auto)]

ghost use Rattle.std.specs.Prelude.{◌≡◌};
ghost use Rattle.statevector.specs.Refusals.{first};
ghost use Rattle.comparison.specs.Comparison.{outside, compare_tests, comparison-response, compare_response, compare_call};

use keys::Compared;
use statevector::Refusal;

// Whether the left-out qubit, if there is one, is outside a key of n words.
fn is_outside(n: usize, out: Option<usize>) -> bool
    ensures { result ≡ outside n out }
{
    out.is_some_and(|q| n <= q / 64)
}

// The first test that applies: 1, 2, 7.
fn test_keys(width: usize, out: Option<usize>, a: &[u64], b: &[u64]) -> Result<(), Refusal>
    ensures { result ≡ first (compare_tests width out a.now b.now) }
{
    if !keys::is_width(width) {
        return Err(Refusal::Width);
    }
    if is_outside(width, out) {
        return Err(Refusal::Qubit);
    }
    if a.len() != width || b.len() != width {
        return Err(Refusal::Length);
    }
    Ok(())
}

// The order of two keys of a width, and how many pairs of their words were compared.
pub fn compare(width: usize, out: Option<usize>, a: &[u64], b: &[u64]) -> Result<Compared, Refusal>
    ensures value { result ≡ compare_call width out a.now b.now }
    ensures result_value { comparison-response result
        ≡ compare_response width out a.now b.now }
{
    test_keys(width, out, a, b)?;
    Ok(keys::compare(a, b, out))
}
