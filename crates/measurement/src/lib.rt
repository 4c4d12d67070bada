// A measurement (`measure`, `normalize`, `do_measure_count` and `do_measure_copy` of
// statevector.rs): the entries of one outcome stay, divided by a scale. Every refusal is found
// before a word is written.
#![tactic(auto)]

ghost use Rattle.std.specs.Prelude.{◌≡◌, true, false, cond, map, ◌+◌, ◌/◌, ◌*◌, ◌≤◌, ◌<◌, ◌-◌, length, take, drop, is_ok, Err, Ok};
ghost use Rattle.std.proofs.lemmas.List.Edits.{sets};
ghost use Rattle.amplitudes.specs.Amplitudes.{over, near_one, finite_c};
ghost use Rattle.keys.specs.Lists.{All};
ghost use Rattle.merge.specs.Records.{record_from, part, flat, amplitude_of, finite_record};
ghost use Rattle.merge.specs.Sorting.{side};
ghost use Rattle.merge.specs.Walks.{records_left};
ghost use Rattle.measurement.specs.Passes.{normalized, divided_side, divided_records, seen_of, HeadPassed, Passed};
ghost use Rattle.measurement.specs.Measurement.{divided, measure_response, in_place, measured, measured_state, measure_by_front, measure_call};
ghost use Rattle.statevector.specs.Tests.{all_finite};
ghost use Rattle.statevector.specs.declared.Refusal.TheVariants as no;
ghost use Rattle.statevector.specs.Answers.{made-response};
ghost use Rattle.statevector.specs.States.{tag_is};

use merge::{Record, Records};
use statevector::{Refusal, Side, State};

// The projection onto bit q = v, and the scale that it divides by (SPECIFICATION 4.2).
#[derive(Clone, Copy)]
struct Projection {
    q: usize,
    v: bool,
    scale: f64,
}

// What is seen of a state's records: how many of each part have the outcome, and whether every part
// of theirs is finite once it is divided.
#[derive(Clone, Copy)]
struct Seen {
    k0: usize,
    k1: usize,
    fine: bool,
}

// How many records have an outcome, and whether every part of them is finite once it is divided:
// two facts, and each holds whatever the other says.
#[derive(Clone, Copy)]
pub struct Matching {
    pub count: usize,
    pub fine: bool,
}

// Whether both parts of a record are finite once they are divided; a record that does not count
// passes.
fn divides_finite(r: Record, scale: f64, counts: bool) -> bool
    requires { finite_record r.n r.words.now ≡ true }
    ensures { result ≡ cond counts
        (finite_c (over (amplitude_of r.entry.n r.entry.words.now) scale)) true }
{
    !counts || (r.amplitude() / scale).is_finite()
}

// Of a part's records those with outcome v of qubit q. This pass and `do_measure_copy` take the
// parts of a projection one by one: of a bool in a struct the compiler doesn't know that it is 0 or
// 1, and each record takes one or two instructions more.
fn do_measure_count(part: Records, q: usize, v: bool, scale: f64) -> Matching
    requires q_bound { q / 64 < part.n }
    requires all { All (λ r. finite_record part.n r ≡ true) (records_left part) }
    ensures count_value { result.count ≡ length (side part.entry.n q v (records_left part.entry)) }
    ensures fine_value { result.fine
        ≡ all_finite part.entry.n (divided_side part.entry.n scale q v (records_left part.entry)) }
{
    let mut count = 0;
    let mut fine = true;
    for r in part {
        let counts = r.bit(q) == v;
        fine &= divides_finite(r, scale, counts);
        count += usize::from(counts);
    }
    Matching { count, fine }
}

// `many` words from word `from` on over those from word `to` on, which is no later; every word
// outside those stays.
fn move_words(ws: &mut [u64], from: usize, to: usize, many: usize)
    requires to_le_from { to ≤ from }
    requires many_in_bounds { from + many ≤ length ws.old }
    ensures { ws.new
        ≡ sets ws.old to (take many (drop from ws.old)) }
{
    if from != to {
        ws.copy_within(from..from + many, to);
    }
}

// The record at word x, divided by the scale, over the words from word `at` on, which is no later;
// every word outside those stays.
fn normalize_record(ws: &mut [u64], x: usize, at: usize, n: usize, scale: f64)
    requires at_le_x { (at ≤ x) × (x + (n + 2) ≤ length ws.old) }
    requires x_value { finite_record n (record_from n ws.old x) ≡ true }
    requires x_value_2 { finite_record n (divided n scale (record_from n ws.old x)) ≡ true }
    ensures { ws.new
        ≡ sets ws.old at (divided n scale (record_from n ws.old x)) }
{
    let a = Record::at(ws, x, n).amplitude() / scale;
    move_words(ws, x, at, n);
    let re = at + n;
    let im = re + 1;
    ws[re] = amplitudes::to_bits(a.re);
    ws[im] = amplitudes::to_bits(a.im);
}

// A part's records with outcome v, divided by the scale, over the start of dst.
fn do_measure_copy(part: Records, q: usize, v: bool, scale: f64, dst: &mut [u64])
    requires q_bound { q / 64 < part.n }
    requires all { All (λ r. finite_record part.n r ≡ true) (records_left part) }
    requires fine { all_finite part.n (divided_side part.n scale q v (records_left part)) ≡ true }
    requires room { length (side part.n q v (records_left part)) * (part.n + 2) ≤ length dst.old }
    ensures { dst.new ≡ sets dst.old 0
        (flat (divided_side part.entry.n scale q v (records_left part.entry))) }
{
    let mut o = 0;
    for r in part {
        if r.bit(q) == v {
            r.put(false, q, r.amplitude() / scale, dst, o);
            o += part.n + 2;
        }
    }
}

// The records with the outcome, divided by the scale, over the back store's start, part by part.
// The store's tail after part 0's is lent to the writer of part 1's.
fn copy_parts(s: State, p: Projection, front: &[u64], back: &mut [u64], seen: Seen)
    requires passed { Passed s p front.now }
    requires seen_value { seen ≡ seen_of s p front.now }
    requires fine { seen.fine ≡ true }
    requires room { (seen.k0 + seen.k1) * (s.width + 2) ≤ length back.old }
    ensures { back.new ≡ sets back.old 0 (flat (divided_records s p front.now)) }
{
    let Projection { q, v, scale } = p;
    let part0 = Records::of(front, 0, s.n0, s.width);
    let part1 = Records::of(front, s.n0, s.n0 + s.n1, s.width);
    do_measure_copy(part0, q, v, scale, back);
    let at = seen.k0 * (s.width + 2);
    do_measure_copy(part1, q, v, scale, &mut back[at..]);
}

// The m records from record `from` on over the store's start: as they are where the scale is near
// 1, and divided by it elsewhere. `fine`: whether every divided part is finite. Where one isn't it
// refuses, and writes nothing.
#[inline(always)]
fn normalize(
    ws: &mut [u64],
    from: usize,
    m: usize,
    n: usize,
    scale: f64,
    fine: bool,
) -> Result<(), Refusal>
    requires n_bound { (n < 63) × ((from + m) * (n + 2) ≤ length ws.old) }
    requires all { All (λ r. finite_record n r ≡ true) (part n ws.old from (from + m)) }
    requires fine_value { near_one scale ≡ false
        → fine ≡ all_finite n (map (divided n scale) (part n ws.old from (from + m))) }
    ensures value { result ≡ cond (all_finite n
        (normalized n scale (part n ws.old from (from + m)))) (Ok tt) (Err no.Overflow) }
    ensures ws_after { ws.new
        ≡ cond (is_ok result) (sets ws.old 0
        (flat (normalized n scale (part n ws.old from (from + m)))))
        ws.old }
{
    let size = n + 2;
    if amplitudes::is_near_one(scale) {
        move_words(ws, from * size, 0, m * size);
        return Ok(());
    }
    if !fine {
        return Err(Refusal::Overflow);
    }
    for r in 0..m {
        normalize_record(ws, (from + r) * size, r * size, n, scale);
    }
    Ok(())
}

// Entries of both outcomes: those with the wanted one are copied to the back store, part by part,
// and it becomes front.
fn measure_copied(
    s: State,
    p: Projection,
    front: &[u64],
    back: &mut [u64],
    seen: Seen,
) -> Result<State, Refusal>
    requires passed { Passed s p front.now }
    requires front_value { in_place p.q p.v s front.now ≡ false }
    requires seen_value { seen ≡ seen_of s p front.now }
    ensures { record { answer = result; front = front.now; back = back.new }
        ≡ measure_by_front s p.q p.v p.scale front.now back.old }
{
    if !seen.fine {
        return Err(Refusal::Overflow);
    }
    if back.len() / (s.width + 2) < seen.k0 + seen.k1 {
        return Err(Refusal::Full);
    }
    copy_parts(s, p, front, back, seen);
    Ok(State {
        front: s.front.other(),
        n0: seen.k0,
        n1: seen.k1,
        ..s
    })
}

// By the tag: the part of outcome v alone stays. Part 1 moves to the store's start; the slots after
// it keep their words.
fn measure_by_tag(s: State, p: Projection, front: &mut [u64], seen: Seen) -> Result<State, Refusal>
    requires q_value { tag_is s.tag p.q ≡ true }
    requires passed { Passed s p front.old }
    requires seen_value { seen ≡ seen_of s p front.old }
    ensures value { result ≡ cond (all_finite s.width (measured p.q p.v p.scale s front.old))
        (Ok (measured_state p.q p.v s front.old)) (Err no.Overflow) }
    ensures front_after { front.new
        ≡ cond (all_finite s.width (measured p.q p.v p.scale s front.old))
        (sets front.old 0 (flat (measured p.q p.v p.scale s front.old)))
        front.old }
{
    if p.v {
        normalize(front, s.n0, s.n1, s.width, p.scale, seen.fine)?;
        return Ok(State { n0: 0, ..s });
    }
    normalize(front, 0, s.n0, s.width, p.scale, seen.fine)?;
    Ok(State { n1: 0, ..s })
}

// A measurement of a state that its tests found fine: by the tag, of all entries, or of some.
fn measure_fine(
    s: State,
    p: Projection,
    front: &mut [u64],
    back: &mut [u64],
    seen: Seen,
) -> Result<State, Refusal>
    requires passed { Passed s p front.old }
    requires seen_value { seen ≡ seen_of s p front.old }
    ensures { record { answer = result; front = front.new; back = back.new }
        ≡ measure_by_front s p.q p.v p.scale front.old back.old }
{
    if s.tag == Some(p.q) {
        return measure_by_tag(s, p, front, seen);
    }
    let all = s.n0 + s.n1;
    if seen.k0 + seen.k1 == all {
        normalize(front, 0, all, s.width, p.scale, seen.fine)?;
        return Ok(s);
    }
    measure_copied(s, p, front, back, seen)
}

// The plain way, for a state of any amplitudes and any scale: the tests that read records, then a
// pass over each part that counts the records with the outcome and divides them to see that they
// stay finite.
fn measure_tested(
    s: State,
    p: Projection,
    front: &mut [u64],
    back: &mut [u64],
) -> Result<State, Refusal>
    requires { HeadPassed s p front.old }
    ensures { record { answer = result; front = front.new; back = back.new }
        ≡ measure_by_front s p.q p.v p.scale front.old back.old }
{
    let Projection { q, v, scale } = p;
    statevector::test_records_with(s, amplitudes::is_finite(scale), front)?;
    let part0 = Records::of(front, 0, s.n0, s.width);
    let part1 = Records::of(front, s.n0, s.n0 + s.n1, s.width);
    let m0 = do_measure_count(part0, q, v, scale);
    let m1 = do_measure_count(part1, q, v, scale);
    let seen = Seen {
        k0: m0.count,
        k1: m1.count,
        fine: m0.fine && m1.fine,
    };
    measure_fine(s, p, front, back, seen)
}

// How many records of a part of `all` have outcome v, where `ones` have the bit set.
fn of_outcome(ones: usize, all: usize, v: bool) -> usize
    requires { ones ≤ all }
    ensures { result ≡ cond v ones (all - ones) }
{
    if v { ones } else { all - ones }
}

// Of a state whose width, qubit and sizes are fine. Where the scale is finite and away from zero
// one quick pass is enough: no amplitude of moderate size overflows when it is divided.
fn measure_scanned(
    s: State,
    p: Projection,
    front: &mut [u64],
    back: &mut [u64],
) -> Result<State, Refusal>
    requires { HeadPassed s p front.old }
    ensures { record { answer = result; front = front.new; back = back.new }
        ≡ measure_by_front s p.q p.v p.scale front.old back.old }
{
    if amplitudes::is_finite(p.scale)
        && amplitudes::is_away_from_zero(p.scale)
        && let Some(ones) = statevector::quick_scan(s, p.q, front)
    {
        let seen = Seen {
            k0: of_outcome(ones.zero, s.n0, p.v),
            k1: of_outcome(ones.one, s.n1, p.v),
            fine: true,
        };
        return measure_fine(s, p, front, back, seen);
    }
    measure_tested(s, p, front, back)
}

// By front and back store.
fn measure_by_front(
    s: State,
    p: Projection,
    front: &mut [u64],
    back: &mut [u64],
) -> Result<State, Refusal>
    ensures { record { answer = result; front = front.new; back = back.new }
        ≡ measure_by_front s p.q p.v p.scale front.old back.old }
{
    statevector::test_head_with_qubit(s, p.q, front)?;
    measure_scanned(s, p, front, back)
}

// Measures qubit q with outcome v: the entries of that outcome stay, divided by the scale.
pub fn measure(
    s: State,
    q: usize,
    v: bool,
    scale: f64,
    left: &mut [u64],
    right: &mut [u64],
) -> Result<State, Refusal>
    ensures right_after { record { answer = result; left = left.new; right = right.new }
        ≡ measure_call s q v scale left.old right.old }
    ensures result_value { made-response result
        ≡ measure_response s q v scale left.old right.old }
{
    let p = Projection { q, v, scale };
    match s.front {
        Side::Left => measure_by_front(s, p, left, right),
        Side::Right => measure_by_front(s, p, right, left),
    }
}
