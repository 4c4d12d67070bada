// Amplitudes and gates by value, after complex.rs and u4.rs. Each `ensures` is an equation with a
// definition of specs/, operation by operation, so it holds at every float, NaN and infinities
// included. What the definitions give on whole numbers is said by proofs/Laws.antt.
#![tactic(auto)]

mod patterns;

ghost use Rattle.std.specs.Prelude.{◌≡◌, ◌&&◌, Bool, Float};
ghost use Rattle.std.specs.Float.Ieee.Scale.{finite};
ghost use Rattle.amplitudes.specs.Amplitudes.{times, plus, opposite, times_i, over_i, conjugate, over, absolute, larger, norm_inf, norm2, near_one, both_parts, all_parts, finite_c, finite_gate};
ghost use Rattle.amplitudes.specs.Pairs.{exceeds, judged, is_kept, accumulated, applied, combined};
ghost use Rattle.amplitudes.specs.Moderate.{within, moderate_gate, away_from_zero};

pub use patterns::{
    from_bits, is_finite_bits, is_moderate_bits, read_amplitude, read_float, read_gate, to_bits,
};
use std::ops;

#[derive(Clone, Copy)]
pub struct Complex {
    pub re: f64,
    pub im: f64,
}

// A gate, in the order of u4.rs: stay and flip from bit clear, stay and flip from bit set.
#[derive(Clone, Copy)]
pub struct U4 {
    pub s0: Complex,
    pub f0: Complex,
    pub s1: Complex,
    pub f1: Complex,
}

// What becomes of a sum: it is an entry of the result, or it is left out.
#[derive(Clone, Copy)]
pub enum Verdict {
    Kept,
    Dropped,
}

// A sum of two products, with its first operand and the verdict on it.
#[derive(Clone, Copy)]
pub struct Accumulated {
    pub first: Complex,
    pub sum: Complex,
    pub verdict: Verdict,
}

// The two products of an amplitude: at its own key, and at the key with the qubit's bit turned
// over.
#[derive(Clone, Copy)]
pub struct Applied {
    pub stay: Complex,
    pub flip: Complex,
}

// The two sums of a pair of entries: at the first entry's own key, and at its partner's.
#[derive(Clone, Copy)]
pub struct Combined {
    pub stay: Accumulated,
    pub flip: Accumulated,
}

// 2^-40
pub const EPS: f64 = 9.094947017729282379150390625e-13;

// 2^500, above the parts of gates of moderate size. Amplitudes have 2^513, which is one constant in
// a test of patterns; 2^513 times 2^513 overflows.
const LARGE: f64 = 3.273390607896142e150;

// 2^-500, below the sizes of divisors by which a moderate size never becomes an infinity.
const SMALL: f64 = 3.054936363499605e-151;

// a times b: (a.re·b.re − a.im·b.im, a.re·b.im + a.im·b.re).
impl ops::Mul for Complex {
    type Output = Complex;

    ghost mul_gives = { λ a b r. r ≡ times a b };

    #[tactic(auto, unfolding(crate::specs::Amplitudes::times))]
    fn mul(self, b: Complex) -> Complex {
        Complex {
            re: self.re * b.re - self.im * b.im,
            im: self.re * b.im + self.im * b.re,
        }
    }
}

// The sum, part by part.
impl ops::Add for Complex {
    type Output = Complex;

    ghost add_gives = { λ a b r. r ≡ plus a b };

    #[tactic(auto, unfolding(crate::specs::Amplitudes::plus))]
    fn add(self, b: Complex) -> Complex {
        Complex {
            re: self.re + b.re,
            im: self.im + b.im,
        }
    }
}

// The opposite. It, `mul_i` and `div_i` are for a later call: phases; nothing uses them yet.
impl ops::Neg for Complex {
    type Output = Complex;

    ghost neg_gives = { λ a r. r ≡ opposite a };

    #[tactic(auto, unfolding(crate::specs::Amplitudes::opposite))]
    fn neg(self) -> Complex {
        Complex {
            re: -self.re,
            im: -self.im,
        }
    }
}

// Both parts divided by a scale.
impl ops::Div<f64> for Complex {
    type Output = Complex;

    ghost div_gives = { λ a scale r. r ≡ over a scale };

    #[tactic(auto, unfolding(crate::specs::Amplitudes::over))]
    fn div(self, scale: f64) -> Complex {
        Complex {
            re: self.re / scale,
            im: self.im / scale,
        }
    }
}

impl Complex {
    // i times it.
    #[tactic(auto, unfolding(crate::specs::Amplitudes::times_i))]
    pub fn mul_i(self) -> Complex
        ensures { result ≡ times_i self }
    {
        Complex {
            re: -self.im,
            im: self.re,
        }
    }

    // It divided by i.
    #[tactic(auto, unfolding(crate::specs::Amplitudes::over_i))]
    pub fn div_i(self) -> Complex
        ensures { result ≡ over_i self }
    {
        Complex {
            re: self.im,
            im: -self.re,
        }
    }

    // The conjugate.
    #[tactic(auto, unfolding(crate::specs::Amplitudes::conjugate))]
    pub fn conj(self) -> Complex
        ensures { result ≡ conjugate self }
    {
        Complex {
            re: self.re,
            im: -self.im,
        }
    }

    // The larger size of the two parts.
    #[tactic(auto, unfolding(crate::specs::Amplitudes::norm_inf))]
    pub fn norm_inf(self) -> f64
        ensures { result ≡ norm_inf self }
    {
        max(abs(self.re), abs(self.im))
    }

    // re·re + im·im.
    #[tactic(auto, unfolding(crate::specs::Amplitudes::norm2))]
    pub fn norm2(self) -> f64
        ensures { result ≡ norm2 self }
    {
        self.re * self.re + self.im * self.im
    }

    // Whether both parts are finite.
    pub fn is_finite(self) -> bool
        ensures { result ≡ finite_c self }
    {
        self.all(is_finite)
    }

    // Whether both parts pass a test. It is asked of im only where re passes.
    pub fn all<P: Fn(f64) -> bool>(self, p: P) -> bool
        requires { P.IsAlwaysCallable p }
        ensures { (test : Float → Bool)
            → ((x : Float) (b : Bool) → P.post p x b → b ≡ test x)
            → result ≡ both_parts test self }
    {
        p(self.re) && p(self.im)
    }
}

impl U4 {
    // What the gate makes of one amplitude. `set`: whether the bit is set in its key.
    #[tactic(auto, unfolding(crate::specs::Pairs::applied))]
    pub fn apply(self, set: bool, a: Complex) -> Applied
        ensures { result ≡ applied self set a }
    {
        if set {
            Applied {
                stay: self.s1 * a,
                flip: self.f1 * a,
            }
        } else {
            Applied {
                stay: self.s0 * a,
                flip: self.f0 * a,
            }
        }
    }

    // What the gate makes of two entries whose keys differ only in its qubit. `set`: whether the
    // bit is set in a's key; b's has the other value. a's products are the first operands.
    #[tactic(auto, unfolding(crate::specs::Pairs::combined))]
    pub fn combine(self, set: bool, a: Complex, b: Complex) -> Combined
        ensures { result ≡ combined self set a b }
    {
        let x = self.apply(set, a);
        let y = self.apply(!set, b);
        Combined {
            stay: Accumulated::new(x.stay, y.flip),
            flip: Accumulated::new(x.flip, y.stay),
        }
    }

    // Whether all eight parts are finite.
    pub fn is_finite(self) -> bool
        ensures { result ≡ finite_gate self }
    {
        self.all(is_finite)
    }

    // Whether all eight parts are of moderate size: what such a gate makes of amplitudes of
    // moderate size is finite, so it needs no test.
    pub fn is_moderate(self) -> bool
        ensures { result ≡ moderate_gate self }
    {
        self.all(is_moderate_part)
    }

    // Whether all eight parts pass a test. It is asked of no part after one that does not pass.
    pub fn all<P: Fn(f64) -> bool>(self, p: P) -> bool
        requires { P.IsAlwaysCallable p }
        ensures { (test : Float → Bool)
            → ((x : Float) (b : Bool) → P.post p x b → b ≡ test x)
            → result ≡ all_parts test self }
    {
        self.s0.all(&p) && self.f0.all(&p) && self.s1.all(&p) && self.f1.all(&p)
    }
}

impl Verdict {
    // The verdict on a sum, by its first operand: a sum that is too small beside it is dropped.
    #[tactic(auto, unfolding(crate::specs::Pairs::exceeds, crate::specs::Amplitudes::of_bits))]
    fn on(sum: Complex, first: Complex) -> Verdict
        ensures { result ≡ judged (exceeds sum first) }
    {
        if sum.norm_inf() > EPS * first.norm_inf() {
            Verdict::Kept
        } else {
            Verdict::Dropped
        }
    }

    // Whether a sum with this verdict is an entry of the result.
    pub fn is_kept(self) -> bool
        ensures { result ≡ is_kept self }
    {
        matches!(self, Verdict::Kept)
    }
}

impl Accumulated {
    // The sum of a first operand and another, and the verdict on it.
    #[tactic(auto, unfolding(crate::specs::Pairs::accumulated))]
    pub fn new(first: Complex, other: Complex) -> Accumulated
        ensures { result ≡ accumulated first other }
    {
        let sum = first + other;
        Accumulated {
            first,
            sum,
            verdict: Verdict::on(sum, first),
        }
    }
}

// x without its sign: the larger of 0.0 - x and x, and of zeros the difference, which is +0.0. This
// form compiles to a subtraction and a maximum; std's `abs` compiles to two comparisons and a
// branch.
pub fn abs(x: f64) -> f64
    ensures { result ≡ absolute x }
{
    let y = 0.0 - x;
    if y < x { x } else { y }
}

// The larger of two; of equal ones, as zeros of both signs are, the first. std's `max` does not
// promise which of them.
#[tactic(auto, unfolding(crate::specs::Amplitudes::larger))]
pub fn max(x: f64, y: f64) -> f64
    ensures { result ≡ larger x y }
{
    if x < y { y } else { x }
}

// Whether a scale is so near 1 that a measurement in place leaves the amplitudes as they are, with
// no division.
#[tactic(auto, unfolding(crate::specs::Amplitudes::near_one, crate::specs::Amplitudes::of_bits))]
pub fn is_near_one(scale: f64) -> bool
    ensures { result ≡ near_one scale }
{
    abs(scale - 1.0) < EPS
}

// Whether x is neither an infinity nor a NaN.
#[tactic(auto, using(crate::proofs::Laws::std_finite))]
pub fn is_finite(x: f64) -> bool
    ensures { result ≡ finite x }
{
    x.is_finite()
}

// Whether the size of x, a part of a gate, is below 2^500.
#[tactic(auto, unfolding(crate::specs::Moderate::within, crate::specs::Amplitudes::of_bits))]
fn is_moderate_part(x: f64) -> bool
    ensures { result ≡ within 500 x }
{
    abs(x) < LARGE
}

// Whether the size of x is above 2^-500: an amplitude of moderate size divided by x is finite, so
// it needs no test.
#[tactic(auto, unfolding(crate::specs::Moderate::away_from_zero, crate::specs::Amplitudes::of_bits))]
pub fn is_away_from_zero(x: f64) -> bool
    ensures { result ≡ away_from_zero x }
{
    SMALL < abs(x)
}
