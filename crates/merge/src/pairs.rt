// The pairs of two parts' records (`merge_eq`, util.rs): records whose keys differ only in bit q,
// one side of such a pair or both, in the order of their keys without that bit.
mod walk;

ghost use Rattle.std.specs.Prelude.{◌≡◌, ◌+◌, ◌^◌, ◌<◌, true};
ghost use Rattle.merge.specs.Records.{records};
ghost use Rattle.merge.specs.Pairs.{pairs, unpaired_count};

use crate::Record;

// A record without a partner, of the first part or the second, or two that are partners.
#[derive(Clone, Copy)]
pub enum Pair<'a> {
    Lhs(Record<'a>),
    Rhs(Record<'a>),
    Both(Record<'a>, Record<'a>),
}

// The pairs that are left, of the records in the words of each part. `paired`: that every record has
// a partner, so that no key is left to compare.
#[derive(Clone, Copy)]
pub struct Pairs<'a> {
    pub lhs: &'a [u64],
    pub rhs: &'a [u64],
    pub n: usize,
    pub q: usize,
    pub paired: bool,
    ghost small: { n + 2 < 2 ^ 64 },
    ghost partners: { paired ≡ true → unpaired_count (pairs n q (records n lhs.now) (records n rhs.now)) ≡ 0 },
}
