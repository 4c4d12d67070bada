// The walk along both parts. No order is asked of them.
ghost use Rattle.std.specs.Iterator.{YieldsFirstBy, item_count};
ghost use Rattle.merge.specs.Walks.{words_of, merged_left};

use super::Merged;
use crate::Record;

impl<'a> Iterator for Merged<'a> {
    type Item = Record<'a>;

    ghost next_gives = { YieldsFirstBy words_of merged_left };

    ghost remaining = { item_count merged_left };

    fn next(&mut self) -> Option<Record<'a>> {
        let n = self.n;
        let Some((x, after_x)) = Record::split_first(self.lhs, n) else {
            let Some((y, after_y)) = Record::split_first(self.rhs, n) else {
                return None;
            };
            self.rhs = after_y;
            return Some(y);
        };
        let Some((y, after_y)) = Record::split_first(self.rhs, n) else {
            self.lhs = after_x;
            return Some(x);
        };
        if keys::compare(x.key(), y.key(), self.left_out).order.is_gt() {
            self.rhs = after_y;
            Some(y)
        } else {
            self.lhs = after_x;
            Some(x)
        }
    }
}
