// What a sparse state is (statevector.rs): its types, the refusals and the one table of tests, with
// the quick pass over records that finds a state fine. The calls stand in crates of their own, and
// in `state`.
#![tactic(auto)]

mod tests;

ghost use Rattle.std.specs.Prelude.{◌≡◌};
ghost use Rattle.statevector.specs.Refusals.{number_of};
ghost use Rattle.statevector.specs.States.{front_of, other_side};

pub use tests::{
    Ones, is_sound, quick_scan, test_head_with_qubit, test_qubit, test_records_with, test_state,
    test_with_qubit,
};

// Which of the two lent stores is front.
#[derive(Clone, Copy, PartialEq, Eq, Debug)]
pub enum Side {
    Left,
    Right,
}

impl Side {
    pub fn other(self) -> Side
        ensures { result ≡ other_side self }
    {
        match self {
            Side::Left => Side::Right,
            Side::Right => Side::Left,
        }
    }

    // The store of this side.
    pub fn store<'a>(self, left: &'a [u64], right: &'a [u64]) -> &'a [u64]
        ensures words { result.now ≡ front_of self left.now right.now }
        ensures place { result.ref_ptr
            ≡ front_of self left.entry.ref_ptr right.entry.ref_ptr }
    {
        match self {
            Side::Left => left,
            Side::Right => right,
        }
    }
}

// The first n0 records of the front store are part 0, the next n1 part 1. The tag is the qubit by
// which the two are told apart, if there is one (SPECIFICATION 1.5; the Rust's `partitioned_by`).
#[derive(Clone, Copy, PartialEq, Eq, Debug)]
pub struct State {
    pub width: usize,
    pub front: Side,
    pub n0: usize,
    pub n1: usize,
    pub tag: Option<usize>,
}

// What a call may give instead of a result, with its number (SPECIFICATION 10.1).
#[derive(Clone, Copy, PartialEq, Eq, Debug)]
pub enum Refusal {
    Width = 1,
    Qubit = 2,
    Count = 3,
    Order = 4,
    WrongSide = 5,
    NotFinite = 6,
    Length = 7,
    Overflow = 8,
    Full = 9,
    Step = 10,
}

impl Refusal {
    pub fn number(self) -> u64
        ensures { result ≡ number_of self }
    {
        self as u64
    }
}
