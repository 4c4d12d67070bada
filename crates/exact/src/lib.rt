// Demand 3 and the proved cases: theorems about the definitions that the calls' contracts cite. See
// docs/THEOREMS.md. Besides, a function that says whether demand 3 covers a gate, and what the
// gate's weight is.
#![tactic(auto)]

ghost use Rattle.std.specs.Prelude.{◌≡◌};
ghost use Rattle.exact.specs.Weighed.{small_whole, column_f, cross_f, zero_f, balanced_f, weighed_of};

use amplitudes::{Complex, U4};

// Whether x is a whole number of at most 16 in size.
fn is_small_whole(x: f64) -> bool
    ensures { result ≡ small_whole x }
{
    let size = amplitudes::abs(x);
    (0..17u32).any(|n| size == n as f64)
}

// The squared length of a column.
#[tactic(auto, unfolding(crate::specs::Weighed::column_f))]
fn column(a: Complex, b: Complex) -> f64
    ensures { result ≡ column_f a b }
{
    a.norm2() + b.norm2()
}

// Whether both parts are 0, of either sign.
#[tactic(auto, unfolding(crate::specs::Weighed::zero_f, crate::specs::Weighed::of_bits))]
fn is_zero(a: Complex) -> bool
    ensures { result ≡ zero_f a }
{
    a.re == 0.0 && a.im == 0.0
}

// s0·conj(f1) + f0·conj(s1).
#[tactic(auto, unfolding(crate::specs::Weighed::cross_f))]
fn cross(g: U4) -> Complex
    ensures { result ≡ cross_f g }
{
    g.s0 * g.f1.conj() + g.f0 * g.s1.conj()
}

// Whether the columns are of one squared length and orthogonal, by floats. On a small gate no
// operation rounds.
#[tactic(auto, unfolding(crate::specs::Weighed::balanced_f))]
fn is_balanced(g: U4) -> bool
    ensures { result ≡ balanced_f g }
{
    column(g.s0, g.f0) == column(g.f1, g.s1) && is_zero(cross(g))
}

// The weight of a gate that demand 3 covers: its parts are whole and at most 16 in size, its
// columns orthogonal and of one squared length, which is the weight, a whole number of at most
// 1,024. Any other gate has none; any floats may be asked of.
pub fn gate_weight(g: U4) -> Option<f64>
    ensures { result ≡ weighed_of g }
{
    if g.all(is_small_whole) && is_balanced(g) {
        Some(column(g.s0, g.f0))
    } else {
        None
    }
}
