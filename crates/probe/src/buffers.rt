// Words that bytes decode to, in fixed memory.
ghost use Rattle.std.specs.Prelude.{◌≡◌, ◌*◌, ◌≤◌, ◌<◌, length, replicate, take};
ghost use Rattle.std.specs.List.{refill};
ghost use Rattle.std.specs.Borrow.{Array, Lends, sem, u64 as word};
ghost use Rattle.std.proofs.lemmas.List.Edits.{sets};
ghost use Rattle.text.specs.Words.{file_words};
ghost use Rattle.probe.specs.Files.{array_words, exact_words, list_words, arg_words};

use arrayvec::ArrayVec;
use numbered::CallName;
use std::marker::Model;

// How many words a buffer has room for.
pub const WORDS: usize = 8192;

// What a call is lent of a slice of bytes.
#[derive(Drop)]
pub struct Buffer {
    words: ArrayVec<u64, WORDS>,
}

// Clauses see the words.
impl Model for Buffer {
    ghost use Rattle.std.specs.Prelude.{ℕ, List};

    ghost Value = { List ℕ };

    ghost view = { λ b. b.words.items };
}

impl Buffer {
    ghost use Rattle.probe.specs.contracts.buffers.Buffer.{the_row};

    pub fn as_words(&self) -> &[u64]
        ensures { result.now ≡ self.now }
    {
        self.words.as_slice()
    }

    pub fn as_mut_words(&mut self) -> &mut [u64]
        ensures* writes_back { sem 𝓛 (Lends the_row (Array word 0) self.entry result
            (refill (length self.old) self.old)) }
        ensures value { result.now ≡ self.old }
    {
        self.words.as_mut_slice()
    }

    // Room for all words that fit, zeros.
    pub fn zeros() -> Buffer
        ensures { result ≡ replicate array_words 0 }
    {
        Buffer {
            words: ArrayVec::from_array_in((), [0; WORDS]),
        }
    }

    // Of zeros: the first `len` of them, which begin with the whole words of a slice.
    fn front(&mut self, bytes: &[u8], len: usize)
        requires fits { length bytes.now ≤ 8 * array_words }
        requires zeros { self.old ≡ replicate array_words 0 }
        ensures { self.new ≡ take len (sets (replicate array_words 0) 0 (file_words bytes.now)) }
    {
        text::read_words(bytes, self.words.as_mut_slice());
        self.words.truncate(len);
    }

    // The whole words of a slice.
    #[tactic(auto, using(crate::proofs::Decoding::decoding))]
    pub fn whole(&mut self, bytes: &[u8])
        requires fits { length bytes.now ≤ 8 * array_words }
        requires zeros { self.old ≡ replicate array_words 0 }
        ensures { self.new ≡ file_words bytes.now }
    {
        self.front(bytes, bytes.len() / 8)
    }

    // Of a state, a gate, a key or results: none where stray bytes are left, which is a wrong
    // length.
    #[tactic(auto, using(crate::proofs::Decoding::decoding))]
    pub fn exact(&mut self, bytes: &[u8])
        requires fits { length bytes.now ≤ 8 * array_words }
        requires zeros { self.old ≡ replicate array_words 0 }
        ensures { self.new ≡ exact_words bytes.now }
    {
        if bytes.len() % 8 == 0 {
            self.whole(bytes)
        } else {
            self.front(bytes, 0)
        }
    }

    // Of a list that goes by k words: where stray bytes are left, no multiple of k.
    #[tactic(auto, using(crate::proofs::Decoding::decoding))]
    fn list(&mut self, bytes: &[u8], k: usize)
        requires fits { length bytes.now ≤ 8 * array_words }
        requires zeros { self.old ≡ replicate array_words 0 }
        requires items { 0 < k }
        ensures { self.new ≡ list_words k bytes.now }
    {
        let whole = bytes.len() / 8;
        if bytes.len() % 8 != 0 && whole % k == 0 {
            self.front(bytes, whole + 1)
        } else {
            self.whole(bytes)
        }
    }

    // Of the argument of the call with this number.
    #[tactic(auto, unfolding(crate::specs::Files::arg_words))]
    pub fn argument(&mut self, number: u64, arg: &[u8])
        requires fits { length arg.now ≤ 8 * array_words }
        requires zeros { self.old ≡ replicate array_words 0 }
        ensures { self.new ≡ arg_words number arg.now }
    {
        match CallName::try_from(number) {
            Ok(CallName::ImportDense) => self.list(arg, 2),
            Ok(CallName::Run) => self.list(arg, 10),
            _ => self.exact(arg),
        }
    }
}
