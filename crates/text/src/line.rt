// A line in fixed memory.
ghost use Rattle.std.specs.Prelude.{◌≡◌, ◌++◌, ◌+◌, ◌≤◌, ℕ, List, [], length, take};
ghost use Rattle.text.specs.Text.{decimal_of, hex_of};

use crate::parts::{put_bytes, put_decimal, put_hex};
use std::marker::Model;

// What was written of a line: the first `len` of its bytes. No line of `trial` has more than 160.
#[derive(Drop)]
pub struct Line {
    bytes: [u8; 160],
    len: usize,
}

// Clauses see the bytes that were written.
impl Model for Line {
    ghost Value = { List ℕ };

    ghost view = { λ l. take l.len l.bytes };

    ghost invariant = { λ l. l.len ≤ 160 };
}

impl Line {
    pub fn new() -> Line
        ensures { result ≡ [] }
    {
        Line {
            bytes: [0; 160],
            len: 0,
        }
    }

    pub fn as_bytes(&self) -> &[u8]
        ensures { result.now ≡ self.now }
    {
        &self.bytes[..self.len]
    }

    // The line with a text after it.
    pub fn text(self, text: &str) -> Line
        requires { length self + length text.now ≤ 160 }
        ensures value { result ≡ self ++ text.now }
        ensures len { length result ≡ length self + length text.now }
    {
        let Line { mut bytes, len } = self;
        let end = put_bytes(&mut bytes, len, text.as_bytes());
        Line { bytes, len: end }
    }

    // The line with a number after it, in decimal with no leading zero.
    pub fn decimal(self, n: u64) -> Line
        requires { length self + 20 ≤ 160 }
        ensures value { result ≡ self ++ decimal_of n }
        ensures len { length result ≤ length self + 20 }
    {
        let Line { mut bytes, len } = self;
        let end = put_decimal(&mut bytes, len, n);
        Line { bytes, len: end }
    }

    // The line with a word after it, in 16 hexadecimal digits.
    pub fn hex(self, w: u64) -> Line
        requires { length self + 16 ≤ 160 }
        ensures value { result ≡ self ++ hex_of w }
        ensures len { length result ≡ length self + 16 }
    {
        let Line { mut bytes, len } = self;
        let end = put_hex(&mut bytes, len, w);
        Line { bytes, len: end }
    }
}
