// The step of the pair merge, and a part's count, by places in a store, for a caller that keeps its
// own.
ghost use Rattle.std.specs.Prelude.{◌≡◌, true, ℕ, ◌+◌, ◌/◌, ◌*◌, ◌≤◌, ◌<◌, length};
ghost use Rattle.merge.specs.Records.{part};
ghost use Rattle.merge.specs.Pairs.{pairs, unpaired_count, next_eq_of, answer_of, Readable};
ghost use Rattle.merge.specs.Sorting.{side};

use crate::{MergeEq, Record, Records};
use std::cmp::Ordering;

// How many of the records i .. e have bit q set.
pub fn count_set(ws: &[u64], i: usize, e: usize, n: usize, q: usize) -> usize
    requires n_in_bounds { e * (n + 2) ≤ length ws.now }
    requires q_bound { q / 64 < n }
    ensures { result ≡ length (side n q true (part n ws.now i e)) }
{
    if i < e {
        Records::of(ws, i, e, n).count_set(q)
    } else {
        0
    }
}

// Which of two parts has the next record by key with bit q left out, or both where their keys then
// agree.
#[derive(Clone, Copy)]
pub enum NextEq {
    Lhs,
    Rhs,
    Both,
    End,
}

// The pair merge (`merge_eq`, util.rs) goes on by this: the part that the next pair comes from, of
// the records from word x to word `end0` and from word y to word `end1`. It reads no amplitude, so
// a pass can test the records before `merge_eq` reads theirs. `paired`: that every record has a
// partner, so that nothing is left to compare.
pub fn next_eq(
    ws: &[u64],
    x: usize,
    end0: usize,
    y: usize,
    end1: usize,
    n: usize,
    q: usize,
    paired: bool,
) -> NextEq
    requires { (x < end0 → x + n ≤ length ws.now) × (y < end1 → y + n ≤ length ws.now) }
    ensures { (i e0 j e1 : ℕ) → x ≡ i * (n + 2) → end0 ≡ e0 * (n + 2) → y ≡ j * (n + 2)
        → end1 ≡ e1 * (n + 2)
        → (paired ≡ true
        → unpaired_count (pairs n q (part n ws.now i e0) (part n ws.now j e1))
        ≡ 0)
        → result ≡ next_eq_of (pairs n q (part n ws.now i e0)
        (part n ws.now j e1)) }
{
    if x < end0 {
        if y < end1 {
            if paired {
                return NextEq::Both;
            }
            return match keys::compare(&ws[x..x + n], &ws[y..y + n], Some(q)).order {
                Ordering::Less => NextEq::Lhs,
                Ordering::Equal => NextEq::Both,
                Ordering::Greater => NextEq::Rhs,
            };
        }
        return NextEq::Lhs;
    }
    if y < end1 {
        return NextEq::Rhs;
    }
    NextEq::End
}

// The next pair with its amplitudes, where `next_eq` told of which part it is: of the record at
// word x, of the one at word y, or of both.
pub fn merge_eq(ws: &[u64], next: NextEq, x: usize, y: usize, n: usize) -> MergeEq
    requires { Readable n ws.now x y next }
    ensures { (q i e0 j e1 : ℕ) → x ≡ i * (n + 2) → y ≡ j * (n + 2)
        → next ≡ next_eq_of (pairs n q (part n ws.now i e0)
        (part n ws.now j e1))
        → result ≡ answer_of n (pairs n q (part n ws.now i e0)
        (part n ws.now j e1)) }
{
    match next {
        NextEq::Lhs => MergeEq::Lhs(Record::at(ws, x, n).amplitude()),
        NextEq::Rhs => MergeEq::Rhs(Record::at(ws, y, n).amplitude()),
        NextEq::Both => {
            let lhs = Record::at(ws, x, n).amplitude();
            let rhs = Record::at(ws, y, n).amplitude();
            MergeEq::Both(lhs, rhs)
        }
        NextEq::End => MergeEq::End,
    }
}
