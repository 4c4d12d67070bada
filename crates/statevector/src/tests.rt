// The tests of a state (SPECIFICATION 10.1): the width, what a call names, the sizes, then one pass
// over each part.
ghost use Rattle.std.specs.Prelude.{◌≡◌, is_some, IfSome, true, List, [], ◌∷◌, ◌++◌, ℕ, ◌+◌, ◌*◌, ◌/◌, ◌≤◌, ◌<◌, ltb, length, None};
ghost use Rattle.merge.specs.Records.{records};
ghost use Rattle.merge.specs.Walks.{records_left};
ghost use Rattle.merge.specs.Sorting.{Rising, sort_key, side};
ghost use Rattle.statevector.specs.Refusals.{Test, first};
ghost use Rattle.statevector.specs.Tests.{meets, qubit_row, finite_row, record_rows, head_rows, state_tests, qubit_tests};
ghost use Rattle.statevector.specs.Scans.{on_tag_side, below_next, sound_one, sound_part, mixed, StateSeen, scan_one, scan_of, both_scans, settles};

use crate::{Refusal, State};
use merge::{Record, Records};
use std::cmp::Ordering;

// What a pass over records finds: whether they rise, are all on their side of the tag's qubit, and
// are finite.
#[derive(Clone, Copy)]
struct Scan {
    rises: bool,
    sided: bool,
    finite: bool,
}

// Whether a record is below the next one of its part, the first that the words after it hold, if
// there is one.
fn is_below_next(r: Record, rest: &[u64]) -> bool
    ensures { result ≡ below_next r.entry.n r.entry.words.now (records r.entry.n rest.now) }
{
    rest.len() < r.words.len() || keys::compare(r.key(), &rest[..r.n], None).order.is_lt()
}

// Whether the tag's qubit, if it is one of the keys', has the wanted bit in a record.
fn is_on_side(r: Record, tag: Option<usize>, bit: bool) -> bool
    ensures { result ≡ on_tag_side r.entry.n tag bit r.entry.words.now }
{
    match tag {
        Some(q) if q / 64 < r.n => r.bit(q) == bit,
        _ => true,
    }
}

// Whether all is well with a record, given the words of its part after it: below the next one, on
// its side, and of moderate size.
pub fn is_sound(r: Record, rest: &[u64], tag: Option<usize>, bit: bool) -> bool
    ensures { result ≡ sound_one r.entry.n tag bit r.entry.words.now (records r.entry.n rest.now) }
{
    is_on_side(r, tag, bit) && r.is_moderate() && is_below_next(r, rest)
}

// The quick pass over a part's records: how many have bit q set, if all is well with each. It ends
// at the first that something is wrong with.
fn quick_scan_part(part: Records, tag: Option<usize>, bit: bool, q: usize) -> Option<usize>
    requires { q / 64 < part.n }
    ensures fine_value { is_some result
        ≡ sound_part part.entry.n tag bit (records_left part.entry) }
    ensures ones_value { IfSome result
        (λ ones. ones ≡ length (side part.entry.n q true (records_left part.entry))) }
{
    let mut left = part.words;
    let mut ones = 0;
    while let Some((r, rest)) = Record::split_first(left, part.n) {
        if !is_sound(r, rest, tag, bit) {
            return None;
        }
        ones += usize::from(r.bit(q));
        left = rest;
    }
    Some(ones)
}

// What is found at a record, given the words of its part after it.
#[tactic(auto, unfolding(crate::specs::Scans::scan_one))]
fn scan_record(r: Record, rest: &[u64], tag: Option<usize>, bit: bool) -> Scan
    ensures { result ≡ scan_one r.entry.n tag bit r.entry.words.now (records r.entry.n rest.now) }
{
    Scan {
        rises: is_below_next(r, rest),
        sided: is_on_side(r, tag, bit),
        finite: r.is_finite(),
    }
}

// What is found in two runs of records.
fn both_scans(x: Scan, y: Scan) -> Scan
    ensures { result ≡ both_scans x y }
{
    Scan {
        rises: x.rises && y.rises,
        sided: x.sided && y.sided,
        finite: x.finite && y.finite,
    }
}

// One pass over a part's records.
fn scan_part(part: Records, tag: Option<usize>, bit: bool) -> Scan
    ensures { result ≡ scan_of part.entry.n tag bit (records_left part.entry) }
{
    let mut left = part.words;
    let mut found = Scan {
        rises: true,
        sided: true,
        finite: true,
    };
    while let Some((r, rest)) = Record::split_first(left, part.n) {
        found = both_scans(found, scan_record(r, rest, tag, bit));
        left = rest;
    }
    found
}

// Whether a key of one part is in the other; both rise.
fn parts_meet(zero: Records, one: Records) -> bool
    requires same_width { one.n ≡ zero.n }
    requires rising { Rising (sort_key zero.n None) (records_left zero)
        × Rising (sort_key zero.n None) (records_left one) }
    ensures { result ≡ meets zero.entry.n (records_left zero.entry) (records_left one.entry) }
{
    let n = zero.n;
    let mut xs = zero.words;
    let mut ys = one.words;
    while let Some((x, after_x)) = Record::split_first(xs, n) {
        let Some((y, after_y)) = Record::split_first(ys, n) else {
            return false;
        };
        match keys::compare(x.key(), y.key(), None).order {
            Ordering::Less => xs = after_x,
            Ordering::Equal => return true,
            Ordering::Greater => ys = after_y,
        }
    }
    false
}

// Whether the sides settle that no key is in both parts: the tag's qubit is one of the keys', and
// all are on their sides.
fn sides_settle(tag: Option<usize>, n: usize, sided: bool) -> bool
    ensures { result ≡ settles n tag sided }
{
    sided && tag.is_some_and(|q| q / 64 < n)
}

// Whether parts whose records are on their sides are still no state's: a tag of 64 n or more, or
// without a tag a key in both.
fn is_mixed(tag: Option<usize>, zero: Records, one: Records) -> bool
    requires same_width { one.n ≡ zero.n }
    requires rising { Rising (sort_key zero.n None) (records_left zero)
        × Rising (sort_key zero.n None) (records_left one) }
    ensures { result ≡ mixed zero.entry.n tag (records_left zero.entry) (records_left one.entry) }
{
    match tag {
        None => parts_meet(zero, one),
        Some(q) => zero.n <= q / 64,
    }
}

// How many records of each part have a bit set.
#[derive(Clone, Copy)]
pub struct Ones {
    pub zero: usize,
    pub one: usize,
}

// Both parts seen by the quick pass: how many records have bit q set, if nothing is wrong and all
// amplitudes are of moderate size. Else it may still be a state: of an amplitude of more than
// moderate size.
pub fn quick_scan(s: State, q: usize, front: &[u64]) -> Option<Ones>
    requires width_in_bounds { (s.n0 + s.n1) * (s.width + 2) ≤ length front.now }
    requires q_bound { (q / 64 < s.width) × (s.width < 63) }
    ensures { StateSeen s front.now q result }
{
    let part0 = Records::of(front, 0, s.n0, s.width);
    let part1 = Records::of(front, s.n0, s.n0 + s.n1, s.width);
    let zero = quick_scan_part(part0, s.tag, false, q)?;
    let one = quick_scan_part(part1, s.tag, true, q)?;
    if is_mixed(s.tag, part0, part1) {
        return None;
    }
    Some(Ones { zero, one })
}

// Row 6, of floats that were looked at.
#[tactic(auto, unfolding(crate::specs::Refusals::first))]
fn test_finite(finite: bool) -> Result<(), Refusal>
    ensures { result ≡ first (finite_row finite ∷ []) }
{
    if finite {
        Ok(())
    } else {
        Err(Refusal::NotFinite)
    }
}

// The rows that read the records. Where the quick passes find something a full pass over each part
// says what; the two parts are walked side by side only where their sides don't settle it.
fn test_records(s: State, front: &[u64]) -> Result<(), Refusal>
    requires width_in_bounds { (s.n0 + s.n1) * (s.width + 2) ≤ length front.now }
    requires width_nonzero { (0 < s.width) × (s.width < 63) }
    ensures { result ≡ first (record_rows s front.now) }
{
    if quick_scan(s, 0, front).is_some() {
        return Ok(());
    }
    let State {
        width: n,
        n0,
        n1,
        tag,
        ..
    } = s;
    let zero = Records::of(front, 0, n0, n);
    let one = Records::of(front, n0, n0 + n1, n);
    let in_zero = scan_part(zero, tag, false);
    let in_one = scan_part(one, tag, true);
    let found = both_scans(in_zero, in_one);
    if !found.rises {
        return Err(Refusal::Order);
    }
    if sides_settle(tag, n, found.sided) {
        return test_finite(found.finite);
    }
    if parts_meet(zero, one) {
        return Err(Refusal::Order);
    }
    if tag.is_some() {
        return Err(Refusal::WrongSide);
    }
    test_finite(found.finite)
}

// Row 2, of a qubit that a call names.
#[tactic(auto, unfolding(crate::specs::Refusals::first))]
pub fn test_qubit(s: State, q: usize) -> Result<(), Refusal>
    ensures { result ≡ first (qubit_row s q ∷ []) }
{
    if s.width <= q / 64 {
        return Err(Refusal::Qubit);
    }
    Ok(())
}

// Whether the two sizes exceed a capacity together. Their sum may be no usize.
fn exceed(n0: usize, n1: usize, capacity: usize) -> bool
    ensures { result ≡ ltb capacity (n0 + n1) }
{
    capacity < n0 || capacity - n0 < n1
}

// The rows that read no record: the width, the call's own rows after it, which gave `named`, and
// the sizes.
#[tactic(auto, unfolding(crate::specs::Refusals::first))]
fn test_head(s: State, named: Result<(), Refusal>, front: &[u64]) -> Result<(), Refusal>
    ensures { (namedRows : List Test) → named ≡ first namedRows
        → result ≡ first (head_rows s front.now namedRows) }
{
    let n = s.width;
    if !keys::is_width(n) {
        return Err(Refusal::Width);
    }
    named?;
    if exceed(s.n0, s.n1, front.len() / (n + 2)) {
        return Err(Refusal::Count);
    }
    Ok(())
}

// The tests of a call with a state whose front store is lent: the first row that applies. The
// call's own rows after the width gave `named`, and those after the state's `brought`.
#[tactic(auto, unfolding(crate::specs::Refusals::first))]
pub fn test_state(
    s: State,
    named: Result<(), Refusal>,
    brought: Result<(), Refusal>,
    front: &[u64],
) -> Result<(), Refusal>
    ensures { (namedRows broughtRows : List Test)
        → named ≡ first namedRows → brought ≡ first broughtRows
        → result ≡ first (state_tests s front.now namedRows broughtRows []) }
{
    test_head(s, named, front)?;
    test_records(s, front)?;
    brought
}

// The tests of a call that names a qubit and brings floats: `finite` says whether these are.
#[tactic(auto, unfolding(crate::specs::Refusals::first))]
pub fn test_with_qubit(s: State, q: usize, finite: bool, front: &[u64]) -> Result<(), Refusal>
    ensures { result ≡ first (qubit_tests s front.now q finite []) }
{
    test_state(s, test_qubit(s, q), test_finite(finite), front)
}

// The same in two steps: the rows that read no record,
#[tactic(auto, unfolding(crate::specs::Refusals::first))]
pub fn test_head_with_qubit(s: State, q: usize, front: &[u64]) -> Result<(), Refusal>
    ensures { result ≡ first (head_rows s front.now (qubit_row s q ∷ [])) }
{
    test_head(s, test_qubit(s, q), front)
}

// and those that read the records, with the call's floats.
#[tactic(auto, unfolding(crate::specs::Refusals::first))]
pub fn test_records_with(s: State, finite: bool, front: &[u64]) -> Result<(), Refusal>
    requires width_in_bounds { (s.n0 + s.n1) * (s.width + 2) ≤ length front.now }
    requires width_nonzero { (0 < s.width) × (s.width < 63) }
    ensures { result ≡ first (record_rows s front.now ++ (finite_row finite ∷ [])) }
{
    test_records(s, front)?;
    test_finite(finite)
}
