// The walk along both parts.
ghost use Rattle.std.specs.Prelude.{◌≡◌, ◌≤◌, ◌<◌, ℕ, ◌+◌, ◌*◌, ◌^◌, ◌∷◌, [], length};
ghost use Rattle.std.specs.Iterator.{item_count};
ghost use Rattle.merge.specs.Records.{part, records};
ghost use Rattle.merge.specs.Pairs.{answer_of};
ghost use Rattle.merge.specs.Walks.{Finite, GivesPair, InPair, Whole, records_of, pairs_left};

use super::{Pair, Pairs};
use crate::{MergeEq, Record, Records};
use std::cmp::Ordering;

impl Pair<'_> {
    // The amplitudes of its records.
    pub fn amplitudes(self) -> MergeEq
        requires { Finite self }
        ensures { (n : ℕ) → InPair (Whole n) (records_of self.entry)
            → result ≡ answer_of n (records_of self.entry ∷ []) }
    {
        match self {
            Pair::Lhs(x) => MergeEq::Lhs(x.amplitude()),
            Pair::Rhs(y) => MergeEq::Rhs(y.amplitude()),
            Pair::Both(x, y) => MergeEq::Both(x.amplitude(), y.amplitude()),
        }
    }
}

impl<'a> Pairs<'a> {
    // The pairs of the records 0 .. e0 and e0 .. e1 of a store.
    pub fn new(ws: &'a [u64], e0: usize, e1: usize, n: usize, q: usize) -> Pairs<'a>
        requires n_in_bounds { (e0 ≤ e1) × (e1 * (n + 2) ≤ length ws.now) }
        requires n_bound { n + 2 < 2 ^ 64 }
        ensures of { (result.n ≡ n) × (result.q ≡ q) }
        ensures lhs_value { records n result.lhs.now ≡ part n ws.now 0 e0 }
        ensures rhs_value { records n result.rhs.now ≡ part n ws.now e0 e1 }
    {
        let lhs = Records::of(ws, 0, e0, n).words;
        let rhs = Records::of(ws, e0, e1, n).words;
        let paired = false;
        Pairs {
            lhs,
            rhs,
            n,
            q,
            paired,
        }
    }
}

impl<'a> Iterator for Pairs<'a> {
    type Item = Pair<'a>;

    ghost next_gives = { GivesPair };

    ghost remaining = { item_count pairs_left };

    fn next(&mut self) -> Option<Pair<'a>> {
        let n = self.n;
        let Some((x, after_x)) = Record::split_first(self.lhs, n) else {
            let Some((y, after_y)) = Record::split_first(self.rhs, n) else {
                return None;
            };
            self.rhs = after_y;
            return Some(Pair::Rhs(y));
        };
        let Some((y, after_y)) = Record::split_first(self.rhs, n) else {
            self.lhs = after_x;
            return Some(Pair::Lhs(x));
        };
        if self.paired {
            self.lhs = after_x;
            self.rhs = after_y;
            return Some(Pair::Both(x, y));
        }
        match keys::compare(x.key(), y.key(), Some(self.q)).order {
            Ordering::Less => {
                self.lhs = after_x;
                Some(Pair::Lhs(x))
            }
            Ordering::Equal => {
                self.lhs = after_x;
                self.rhs = after_y;
                Some(Pair::Both(x, y))
            }
            Ordering::Greater => {
                self.rhs = after_y;
                Some(Pair::Rhs(y))
            }
        }
    }
}
