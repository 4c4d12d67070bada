// Walks along two parts: their pairs, and that they go on by the same width and qubit.
use crate::{Pair, Pairs};

// The keys of a pair, each of one word, on the side that its record is of.
fn keys_of(pair: Option<Pair<'_>>) -> [Option<u64>; 2] {
    match pair {
        None => [None, None],
        Some(Pair::Lhs(x)) => [Some(x.words[0]), None],
        Some(Pair::Rhs(y)) => [None, Some(y.words[0])],
        Some(Pair::Both(x, y)) => [Some(x.words[0]), Some(y.words[0])],
    }
}

// Whether a walk gives the pairs with these keys, by the width and the qubit that it began with.
fn goes_by(mut walk: Pairs<'_>, wanted: &[[Option<u64>; 2]]) -> Result<(), &'static str> {
    let Pairs { n, q, .. } = walk;
    for want in wanted {
        if keys_of(walk.next()) != *want {
            return Err("another pair");
        }
        if walk.n != n || walk.q != q {
            return Err("another width or qubit");
        }
    }
    Ok(())
}

// Keys by qubit 1, whose bit is worth 2: 1 and 3 differ in it alone. Each walk is asked once more
// after its end.
#[test]
fn part_0_ends_first() -> Result<(), &'static str> {
    let ws = [0, 0, 0, 1, 0, 0, 4, 0, 0, 3, 0, 0, 7, 0, 0];
    goes_by(
        Pairs::new(&ws, 3, 5, 1, 1),
        &[
            [Some(0), None],
            [Some(1), Some(3)],
            [Some(4), None],
            [None, Some(7)],
            [None, None],
            [None, None],
        ],
    )
}

#[test]
fn part_1_ends_first() -> Result<(), &'static str> {
    let ws = [1, 0, 0, 8, 0, 0, 2, 0, 0, 3, 0, 0, 7, 0, 0];
    goes_by(
        Pairs::new(&ws, 2, 5, 1, 1),
        &[
            [None, Some(2)],
            [Some(1), Some(3)],
            [None, Some(7)],
            [Some(8), None],
            [None, None],
            [None, None],
        ],
    )
}
