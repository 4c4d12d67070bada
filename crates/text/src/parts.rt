// Parts of lines: each is written into a lent buffer from place `at` on, and every other byte stays.
// The result is the place after it.
ghost use Rattle.std.specs.Prelude.{◌+◌, ◌≤◌, length};
ghost use Rattle.text.specs.Text.{decimal_of, hex_of, Put};

use crate::digits::{count_digits, put_digits};

// A number in decimal, with no leading zero.
pub fn put_decimal(buf: &mut [u8], at: usize, n: u64) -> usize
    requires { at + 20 ≤ length buf.old }
    ensures { Put buf.old at (decimal_of n) buf.new result }
{
    let end = at + count_digits(n);
    put_digits(&mut buf[at..end], 10, n);
    end
}

// A word in 16 hexadecimal digits.
pub fn put_hex(buf: &mut [u8], at: usize, w: u64) -> usize
    requires { at + 16 ≤ length buf.old }
    ensures { Put buf.old at (hex_of w) buf.new result }
{
    let end = at + 16;
    put_digits(&mut buf[at..end], 16, w);
    end
}

// A text as it is.
pub fn put_bytes(buf: &mut [u8], at: usize, text: &[u8]) -> usize
    requires { at + length text.now ≤ length buf.old }
    ensures { Put buf.old at text.now buf.new result }
{
    let end = at + text.len();
    buf[at..end].copy_from_slice(text);
    end
}
