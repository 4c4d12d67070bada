// How many words the parts of an item have, as its header says.
ghost use Rattle.std.specs.Prelude.{◌≡◌, ◌+◌, ◌≤◌, IfSome};
ghost use Rattle.replay.specs.Calls.{Lengths};

// At most 512 each.
#[derive(Clone, Copy)]
pub struct Sizes {
    pub state: usize,
    pub arg: usize,
    pub arg2: usize,
    pub left: usize,
    pub right: usize,
    pub third: usize,
    pub out: usize,
    ghost small: { (state ≤ 512) × (arg ≤ 512) × (arg2 ≤ 512) × (left ≤ 512) × (right ≤ 512) × (third ≤ 512) × (out ≤ 512) },
}

// The size that a word says, where it is not too large.
fn size(word: u64) -> Option<usize>
    ensures { IfSome result (λ n. (n ≡ word) × (n ≤ 512)) }
{
    (word <= 512).then_some(word as usize)
}

impl Sizes {
    // Those that a header says, where none is too large.
    pub fn read(header: &[u64; 12]) -> Option<Sizes>
        ensures { IfSome result (λ n. Lengths header.now n.state n.arg n.arg2 n.left n.right n.third n.out) }
    {
        Some(Sizes {
            state: size(header[4])?,
            arg: size(header[5])?,
            arg2: size(header[6])?,
            left: size(header[7])?,
            right: size(header[8])?,
            third: size(header[9])?,
            out: size(header[10])?,
        })
    }

    // The words of all parts before the call, and of those that it may change after it.
    pub fn before(&self) -> usize
        ensures value { result ≡ self.now.state + self.now.arg + self.now.arg2 + self.now.left + self.now.right + self.now.third + self.now.out }
        ensures small { result ≤ 3584 }
    {
        self.state + self.arg + self.arg2 + self.left + self.right + self.third + self.out
    }

    pub fn after(&self) -> usize
        ensures value { result ≡ self.now.state + self.now.left + self.now.right + self.now.third + self.now.out }
        ensures small { result ≤ 2560 }
    {
        self.state + self.left + self.right + self.third + self.out
    }
}
