// The lines of `trial`, each with its newline. A number stands in decimal, with no leading zero; a
// word of a key or of an amplitude in 16 hexadecimal digits.
ghost use Rattle.std.specs.Prelude.{◌≡◌};
ghost use Rattle.text.specs.Text.{step_text_of, tag_text_of, record_line};

use crate::line::Line;

// `step I answer A sizes N0 N1`, and ` sums S0 S1` after it where the step has sums.
pub fn step_line(i: u64, answer: u64, n0: u64, n1: u64, sums: Option<(u64, u64)>) -> Line
    ensures { result ≡ step_text_of i answer n0 n1 sums }
{
    let step = Line::new().text("step ").decimal(i);
    let answered = step.text(" answer ").decimal(answer);
    let sized = answered.text(" sizes ").decimal(n0).text(" ").decimal(n1);
    match sums {
        None => sized.text("\n"),
        Some((s0, s1)) => sized.text(" sums ").hex(s0).text(" ").hex(s1).text("\n"),
    }
}

// `tag Q` for a state whose tag is qubit Q, and `tag none` for one that has none.
pub fn tag_line(tag: Option<u64>) -> Line
    ensures { result ≡ tag_text_of tag }
{
    match tag {
        None => Line::new().text("tag none\n"),
        Some(q) => Line::new().text("tag ").decimal(q).text("\n"),
    }
}

// `KEY RE IM`.
pub fn record_line(key: u64, re: u64, im: u64) -> Line
    ensures { result ≡ record_line key re im }
{
    let front = Line::new().hex(key).text(" ").hex(re);
    front.text(" ").hex(im).text("\n")
}
