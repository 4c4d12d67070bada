// The digits of numbers, in ASCII.
ghost use Rattle.std.specs.Prelude.{◌≡◌, ◌<◌, ◌≤◌, length};
ghost use Rattle.text.specs.Text.{digit_of, digits, places};

// A digit, in lower case.
fn digit(d: u64) -> u8
    requires { d < 16 }
    ensures { result ≡ digit_of d }
{
    let d = d as u8;
    if d < 10 { b'0' + d } else { b'a' - 10 + d }
}

// Writes the last digits of n over a slice, the most significant first.
pub fn put_digits(bytes: &mut [u8], base: u64, n: u64)
    requires { (0 < base) × (base ≤ 16) }
    ensures { bytes.new ≡ digits base (length bytes.old) n }
{
    let mut rest = n;
    for i in (0..bytes.len()).rev() {
        bytes[i] = digit(rest % base);
        rest /= base;
    }
}

// How many decimal digits n has.
pub fn count_digits(n: u64) -> usize
    ensures { result ≡ places 19 n }
{
    match n.checked_ilog10() {
        None => 1,
        Some(k) => k as usize + 1,
    }
}
