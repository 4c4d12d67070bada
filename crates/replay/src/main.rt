// The program `replay`: reads a list of calls and what they gave from standard input, makes every
// call, compares, and prints how many it compared and how many differ. The host makes the list
// (host/README.md); the program needs no Rust.
//
// The list is words of 64 bits, little-endian. An item is a call by its number, with all words that
// it is lent and all that it leaves: a header of 12 words; the words of the state, of two
// arguments, of the left, the right and the third store and for results before the call; those of
// the state, of the three stores and for results after it; and the word with which the exclusive or
// of all words of the item is 0. The header: 0 the call's number, 1 to 3 its numbers a, b and c, 4
// to 10 how many words the state, the two arguments, the left, the right and the third store and
// the results have, 11 the answer. crates/numbered/specs/Numbered.antt says what each call takes.
//
// Proved is what a comparison says of the words that it is given (`item_holds` of specs/), that these
// have the lengths which the header says (`Judged`), and that the count is of such verdicts, each on
// some item (`Tallied`). That the words are those of the list, that every item is taken and that the
// lines are written, no contract can say: nothing is promised of what a read gives. Tests show it
// (.ci/examples: lists with one wrong byte).
#![tactic(auto)]

mod items;
mod lists;
mod sizes;

ghost use Rattle.std.specs.Prelude.{◌≡◌, ◌+◌, ◌≤◌, ◌<◌, length, take, drop};
ghost use Rattle.replay.specs.Counting.{ItemVerdict, differing, tally_one};
ghost use Rattle.replay.specs.Items.{Says, words_before, words_after, item_of, Judged, NextItem, Tallied};

use sizes::Sizes;
use text::Line;

// ---- items

// What the input has: an item that is as the calls give it, that differs, or that is not whole. One
// that is not whole ends before its words do, or has numbers of words or a last word that cannot be.
#[derive(Clone, Copy, PartialEq, Eq)]
enum Seen {
    Same,
    Different,
    Broken,
}

impl Seen {
    // What an item adds to those that differ.
    fn differing(self) -> u64
        ensures value { result ≡ differing self }
        ensures upper_bound { result ≤ 1 }
    {
        match self {
            Seen::Same => 0,
            Seen::Different | Seen::Broken => 1,
        }
    }
}

// How many items were taken, and how many of them differ or are not whole.
#[derive(Clone, Copy)]
struct Count {
    items: u64,
    differ: u64,
}

impl Count {
    // The count after one item more.
    fn with(self, seen: Seen) -> Count
        requires { (self.items < 18446744073709551615) × (self.differ ≤ self.items) }
        ensures value { result ≡ tally_one self seen }
        ensures result_value { (result.items ≡ self.items + 1) × (result.differ ≤ result.items) }
    {
        Count {
            items: self.items + 1,
            differ: self.differ + seen.differing(),
        }
    }
}

// The item whose words after the header are there, its last word too: their exclusive or, then its
// call.
fn judge(header: &[u64; 12], n: &Sizes, words: &mut [u64]) -> Seen
    requires says { Says header.now n.now }
    requires words_len { length words.old ≡ words_before n.now + words_after n.now + 1 }
    ensures judged { Judged header.now result }
    ensures verdict { ItemVerdict result (item_of header.now n.now
        (take (words_before n.now) words.old)
        (take (words_after n.now) (drop (words_before n.now) words.old))) }
{
    if lists::mark(header) ^ lists::mark(words) != 0 {
        return Seen::Broken;
    }
    let (before, rest) = words.split_at_mut(n.before());
    let holds = items::holds(header, n, before, &rest[..n.after()]);
    if holds { Seen::Same } else { Seen::Different }
}

// The item with this header: reads what follows it, and compares.
fn take_item(header: &[u64; 12]) -> Seen
    ensures { Judged header.now result }
{
    let Some(n) = Sizes::read(header) else {
        return Seen::Broken;
    };
    let mut words: [u64; 6145] = [0; 6145];
    let words = &mut words[..n.before() + n.after() + 1];
    if !lists::read_words(words) {
        return Seen::Broken;
    }
    judge(header, &n, words)
}

// ---- the list

// Reads an item and makes its call; there is none at the end of the input.
fn next_item() -> Option<Seen>
    ensures { NextItem result }
{
    let mut bytes: [u8; 96] = [0; 96];
    let came = io::read_full(0, &mut bytes);
    if came == 0 {
        return None;
    }
    if came < 96 {
        return Some(Seen::Broken);
    }
    let mut header: [u64; 12] = [0; 12];
    text::read_words(&bytes, &mut header);
    Some(take_item(&header))
}

// Prints a line. What cannot be written is passed over.
fn print(line: Line) {
    io::write_all(1, line.as_bytes());
}

// Prints the line of an item that is not whole, or of the first that differs.
fn report(c: Count, seen: Seen) {
    let item = Line::new().text("item ").decimal(c.items);
    match seen {
        Seen::Broken => print(item.text(" of the list is not whole\n")),
        Seen::Different if c.differ == 1 => print(item.text(" differs\n")),
        _ => (),
    }
}

// Takes every item of the input. Where one is not whole, nothing says where the next begins. A
// proved loop has to end, and nothing says that the input does, so it ends at a number of items too,
// which no list reaches.
fn take_items() -> Count
    ensures { Tallied result }
{
    let mut c = Count {
        items: 0,
        differ: 0,
    };
    for _ in 0..u64::MAX {
        let Some(seen) = next_item() else {
            return c;
        };
        c = c.with(seen);
        report(c, seen);
        if seen == Seen::Broken {
            return c;
        }
    }
    c
}

fn main() {
    let Count { items, differ } = take_items();
    let compared = Line::new().text("compared ").decimal(items);
    print(compared.text(" calls, ").decimal(differ).text(" differ\n"));
}
