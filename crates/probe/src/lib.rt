// C functions for tests alone, in an archive of their own: any call by its number on bytes, for the
// differential runs, and the operations on amplitudes, for the comparison with Rust's own
// operators.
#![tactic(auto)]

mod buffers;
mod bytes;

ghost use Rattle.std.specs.Prelude.{◌≡◌};
ghost use Rattle.probe.specs.Results.{amplitude_result};

use amplitudes::{Accumulated, Complex};

// One result of the operations on amplitudes; `which` counts as specs/Results.antt does. It is a
// float and not a pattern, since it may be a NaN.
#[tactic(auto, using(crate::proofs::Amplitudes::results))]
#[unsafe(no_mangle)]
pub extern "C" fn butrask_amplitude(
    which: u64,
    ar: f64,
    ai: f64,
    br: f64,
    bi: f64,
    scale: f64,
) -> f64
    ensures { result ≡ amplitude_result which (record { re = ar; im = ai })
        (record { re = br; im = bi }) scale }
{
    let a = Complex { re: ar, im: ai };
    let b = Complex { re: br, im: bi };
    match which {
        0 => (a * b).re,
        1 => (a * b).im,
        2 => Accumulated::new(a, b).sum.re,
        3 => Accumulated::new(a, b).sum.im,
        4 => f64::from(Accumulated::new(a, b).verdict.is_kept()),
        5 => a.norm_inf(),
        6 => a.norm2(),
        7 => (a / scale).re,
        8 => (a / scale).im,
        9 => f64::from(amplitudes::is_near_one(scale)),
        10 => f64::from(amplitudes::is_finite(scale)),
        11 => amplitudes::abs(ar),
        12 => amplitudes::max(ar, ai),
        _ => 0.0,
    }
}
