// Records in lent words (buffer.rs) and the merging of two parts of them (util.rs). A record is n
// key words, then the bit patterns of re and im; record r begins at word r * (n + 2). No word
// outside the records named is read or written.
#![tactic(auto)]

ghost use Rattle.std.specs.Prelude.{◌≡◌, true, false, cond, ◌++◌, ◌+◌, ◌/◌, ◌*◌, ◌≤◌, ◌<◌, length, None};
ghost use Rattle.std.proofs.lemmas.List.Edits.{sets};
ghost use Rattle.merge.specs.Records.{part, flat, record_bit};
ghost use Rattle.merge.specs.Walks.{merged_left};
ghost use Rattle.merge.specs.Pairs.{position_of};
ghost use Rattle.merge.specs.Sorting.{Rising, sort_key, side, parted_words};

mod merged;
mod pairs;
mod places;
mod record;
#[cfg(test)]
mod tests;

use amplitudes::Complex;
pub use merged::Merged;
pub use pairs::{Pair, Pairs};
pub use places::{NextEq, count_set, merge_eq, next_eq};
pub use record::{Record, Records};
use std::cmp::Ordering;

// A record goes to part 0 of the back store, at its word o0, or to part 1, at its word o1, by its
// bit q. Part 1 begins at word `at`: the store's tail from there on is lent to the writer. Says
// whether it went to part 1.
fn place(r: Record, q: usize, back: &mut [u64], at: usize, o0: usize, o1: usize) -> bool
    requires q_bound { q / 64 < r.n }
    requires at_in_bounds { at ≤ length back.old }
    requires room0 { record_bit r.n q r.words.now ≡ false → o0 + (r.n + 2) ≤ length back.old }
    requires room1 { record_bit r.n q r.words.now ≡ true
        → at + (o1 + (r.n + 2)) ≤ length back.old }
    ensures value { result ≡ record_bit r.entry.n q r.entry.words.now }
    ensures back_after { back.new ≡ sets back.old (cond result (at + o1) o0) r.entry.words.now }
{
    let size = r.words.len();
    if r.bit(q) {
        let part1 = &mut back[at..];
        keys::copy_words(r.words, &mut part1[o1..o1 + size]);
        true
    } else {
        keys::copy_words(r.words, &mut back[o0..o0 + size]);
        false
    }
}

// The records of both parts by key: those with bit q clear from the start of the back store on,
// those with it set from record n0 on.
fn merge_distinct(parts: Merged, q: usize, back: &mut [u64], n0: usize)
    requires q_bound { q / 64 < parts.n }
    requires n0_value { n0 ≡ length (side parts.n q false (merged_left parts)) }
    requires room { n0 * (parts.n + 2)
        + length (side parts.n q true (merged_left parts)) * (parts.n + 2) ≤ length back.old }
    ensures { back.new ≡ sets back.old 0
        (flat (side parts.entry.n q false (merged_left parts.entry))
        ++ flat (side parts.entry.n q true (merged_left parts.entry))) }
{
    let size = parts.n + 2;
    let at = n0 * size;
    let mut o0 = 0;
    let mut o1 = 0;
    for r in parts {
        if place(r, q, back, at, o0, o1) {
            o1 += size;
        } else {
            o0 += size;
        }
    }
}

// The records of the two parts, n0 and n1 of them, in the order of their keys and split by qubit q,
// over the start of the back store: part 0 and then part 1, the rest of the store untouched. `ones`
// of them have the bit set: that is the size of the new part 1.
pub fn repartition(
    front: &[u64],
    n0: usize,
    n1: usize,
    n: usize,
    q: usize,
    ones: usize,
    back: &mut [u64],
)
    requires n_in_bounds { (n0 + n1) * (n + 2) ≤ length front.now }
    requires n_in_bounds_2 { (n0 + n1) * (n + 2) ≤ length back.old }
    requires q_bound { q / 64 < n }
    requires rising { Rising (sort_key n None) (part n front.now 0 n0)
        × Rising (sort_key n None) (part n front.now n0 (n0 + n1)) }
    requires ones_value { ones ≡ length (side n q true (part n front.now 0 (n0 + n1))) }
    ensures { back.new ≡ sets back.old 0
        (parted_words n q (part n front.now 0 (n0 + n1))) }
{
    let all = n0 + n1;
    if all == 0 {
        return;
    }
    let lhs = Records::of(front, 0, n0, n).words;
    let rhs = Records::of(front, n0, all, n).words;
    let left_out = None;
    let parts = Merged {
        lhs,
        rhs,
        n,
        left_out,
    };
    merge_distinct(parts, q, back, all - ones);
}

// What the pair merge answers: one side, or both where their keys agree without the bit, with the
// amplitudes.
#[derive(Clone, Copy)]
pub enum MergeEq {
    Lhs(Complex),
    Rhs(Complex),
    Both(Complex, Complex),
    End,
}

// The record of the rising records from .. to that has the key, by halving.
pub fn find(ws: &[u64], from: usize, to: usize, n: usize, key: &[u64]) -> Option<usize>
    requires from_le_to { (from ≤ to) × (to * (n + 2) ≤ length ws.now) }
    requires key_len { length key.now ≡ n }
    requires rising { Rising (sort_key n None) (part n ws.now from to) }
    ensures { result ≡ position_of n key.now from (part n ws.now from to) }
{
    let mut lo = from;
    let mut hi = to;
    while lo < hi {
        let mid = lo + (hi - lo) / 2;
        match keys::compare(Record::nth(ws, mid, n).key(), key, None).order {
            Ordering::Less => lo = mid + 1,
            Ordering::Equal => return Some(mid),
            Ordering::Greater => hi = mid,
        }
    }
    None
}
