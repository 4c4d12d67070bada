// The records of a part, one after the other: those that its words hold whole.
ghost use Rattle.std.specs.Prelude.{◌≡◌, true, ℕ, ◌+◌, ◌*◌, ◌/◌, ◌^◌, ◌≤◌, ◌<◌, length, None};
ghost use Rattle.std.specs.Iterator.{YieldsFirstBy, item_count};
ghost use Rattle.merge.specs.Records.{part, records};
ghost use Rattle.merge.specs.Pairs.{position_of};
ghost use Rattle.merge.specs.Sorting.{Rising, sort_key, side};
ghost use Rattle.merge.specs.Walks.{words_of, records_left};

use super::{Record, Records};
use std::cmp::Ordering;

impl<'a> Records<'a> {
    // The records i .. e of a store.
    pub fn of(ws: &'a [u64], i: usize, e: usize, n: usize) -> Records<'a>
        requires n_in_bounds { (i ≤ e) × (e * (n + 2) ≤ length ws.now) }
        requires n_bound { n + 2 < 2 ^ 64 }
        ensures n_value { result.n ≡ n }
        ensures part_value { records_left result ≡ part n ws.now i e }
    {
        let size = n + 2;
        let words = &ws[i * size..e * size];
        Records { words, n }
    }

    // How many have bit q set.
    pub fn count_set(self, q: usize) -> usize
        requires { q / 64 < self.n }
        ensures { result ≡ length (side self.entry.n q true (records_left self.entry)) }
    {
        let mut count = 0;
        for r in self {
            count += usize::from(r.bit(q));
        }
        count
    }
}

impl<'a> Iterator for Records<'a> {
    type Item = Record<'a>;

    ghost next_gives = { YieldsFirstBy words_of records_left };

    ghost remaining = { item_count records_left };

    fn next(&mut self) -> Option<Record<'a>> {
        let (r, rest) = Record::split_first(self.words, self.n)?;
        self.words = rest;
        Some(r)
    }
}
