// Bytes: little-endian words both ways, parts of lines written into a lent buffer, and the lines
// that the program `trial` prints (SPECIFICATION 9.2), put together in fixed memory.
#![tactic(auto)]

mod digits;
mod line;
mod lines;
mod parts;
mod words;

pub use line::Line;
pub use lines::{record_line, step_line, tag_line};
pub use parts::{put_bytes, put_decimal, put_hex};
pub use words::{put_words, read_words, word_at};
