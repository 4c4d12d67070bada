// Bit patterns of 64 bits: what they are tested for as numbers, and the floats, amplitudes and
// gates that are read from them.
ghost use Rattle.std.specs.Prelude.{◌≡◌, not, T, length};
ghost use Rattle.std.specs.Float.{binary64};
ghost use Rattle.std.specs.Float.Ieee.{of_bits, to_bits, is_nan};
ghost use Rattle.std.specs.Float.Ieee.Scale.{finite};
ghost use Rattle.amplitudes.specs.Moderate.{moderate};
ghost use Rattle.amplitudes.specs.Readings.{read_float, read_amplitude, read_gate};

use crate::{Complex, U4};

// A pattern's bit for the sign.
const SIGN: u64 = 1 << 63;

// The pattern of the infinity, and that of 2^513: without its sign, a pattern below the first is of
// a finite float, and one below the second of a float of moderate size.
const INFINITY: u64 = 0x7ff0_0000_0000_0000;

const LIMIT: u64 = 0x6000_0000_0000_0000;

// Whether a bit pattern is that of a finite float. It is tested as a number, since `f64::from_bits`
// is undefined at a NaN's pattern. This and the next function are one comparison each, so one
// function over the bound would be no shorter, and would promise less of the float.
#[tactic(auto, using(crate::proofs::PatternLaws::pattern_tests))]
pub fn is_finite_bits(n: u64) -> bool
    ensures { result ≡ finite (of_bits binary64 n) }
{
    n % SIGN < INFINITY
}

// Whether a bit pattern is that of a part of moderate size of an amplitude: its sign taken off, it
// is below that of 2^513.
#[tactic(auto, using(crate::proofs::PatternLaws::pattern_tests))]
pub fn is_moderate_bits(n: u64) -> bool
    ensures { result ≡ moderate (of_bits binary64 n) }
{
    n % SIGN < LIMIT
}

// The float of a finite pattern.
#[tactic(auto, using(crate::proofs::PatternLaws::pattern_tests))]
pub fn from_bits(n: u64) -> f64
    requires { T (finite (of_bits binary64 n)) }
    ensures { result ≡ of_bits binary64 n }
{
    f64::from_bits(n)
}

// The pattern of a float that is no NaN. A sum of squares may be infinite.
pub fn to_bits(x: f64) -> u64
    requires { T (not (is_nan x)) }
    ensures { result ≡ to_bits binary64 x }
{
    x.to_bits()
}

// The float of any pattern. `f64::from_bits` is undefined at a NaN, so every pattern that is not
// finite is read as an infinity.
#[tactic(auto, unfolding(crate::specs::Readings::read_float))]
pub fn read_float(bits: u64) -> f64
    ensures { result ≡ read_float bits }
{
    if is_finite_bits(bits) {
        from_bits(bits)
    } else {
        f64::INFINITY
    }
}

// The amplitude of any two patterns.
pub fn read_amplitude(re: u64, im: u64) -> Complex
    ensures { result ≡ read_amplitude re im }
{
    Complex {
        re: read_float(re),
        im: read_float(im),
    }
}

// The gate of any eight patterns: re and im of s0, f0, s1, f1.
pub fn read_gate(words: &[u64]) -> U4
    requires { length words.now ≡ 8 }
    ensures { result ≡ read_gate words.now }
{
    U4 {
        s0: read_amplitude(words[0], words[1]),
        f0: read_amplitude(words[2], words[3]),
        s1: read_amplitude(words[4], words[5]),
        f1: read_amplitude(words[6], words[7]),
    }
}
