// The records of two parts in the order of their keys, with a bit left out or none (`merge_distinct`,
// util.rs).
mod walk;

ghost use Rattle.std.specs.Prelude.{◌+◌, ◌^◌, ◌<◌};

// The records that are left, in the words of each part.
#[derive(Clone, Copy)]
pub struct Merged<'a> {
    pub lhs: &'a [u64],
    pub rhs: &'a [u64],
    pub n: usize,
    pub left_out: Option<usize>,
    ghost small: { n + 2 < 2 ^ 64 },
}
