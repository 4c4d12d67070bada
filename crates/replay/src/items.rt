// An item of the list: its call is made, and what it leaves is compared.
ghost use Rattle.std.specs.Prelude.{◌≡◌, ◌≤◌, ◌+◌, length};
ghost use Rattle.replay.specs.Items.{words_before, words_after, item_of};

use crate::sizes::Sizes;
use numbered::{Lent, Numbers};

// Makes the call of an item and compares the answer and every word that the call may change:
// `before` has the words of the state, the two arguments, the left, the right and the third store
// and of the results, one after the other, and `after` those of the parts that are no arguments.
pub fn holds(header: &[u64; 12], n: &Sizes, before: &mut [u64], after: &[u64]) -> bool
    requires before_len { length before.old ≡ words_before n.now }
    requires after_len { length after.now ≡ words_after n.now }
    ensures { result ≡ item_of header.now n.now before.old after.now }
{
    let (state, rest) = before.split_at_mut(n.state);
    let (arg, rest) = rest.split_at_mut(n.arg);
    let (arg2, rest) = rest.split_at_mut(n.arg2);
    let (left, rest) = rest.split_at_mut(n.left);
    let (right, rest) = rest.split_at_mut(n.right);
    let (third, out) = rest.split_at_mut(n.third);
    let lent = Lent {
        state,
        left,
        right,
        third,
        out,
        numbers: Numbers {
            a: header[1] as usize,
            b: header[2],
            c: header[3],
        },
        arg,
        arg2,
    };
    let answer = words::answer_number(numbered::call(header[0], lent));
    let (state_after, rest) = after.split_at(n.state);
    let (left_after, rest) = rest.split_at(n.left);
    let (right_after, rest) = rest.split_at(n.right);
    let (third_after, out_after) = rest.split_at(n.third);
    (*state == *state_after)
        & (*left == *left_after)
        & (*right == *right_after)
        & (*third == *third_after)
        & (*out == *out_after)
        & (answer == header[11])
}
