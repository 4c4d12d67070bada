// Records in lent words (buffer.rs): n key words, then the bit patterns of re and im. One of them,
// and those of a part.
mod part;

ghost use Rattle.std.specs.Prelude.{◌≡◌, IfNone, IfSome, true, ℕ, ◌+◌, ◌*◌, ◌/◌, ◌^◌, ◌≤◌, ◌<◌, [], ◌∷◌, length};
ghost use Rattle.std.proofs.lemmas.List.Edits.{sets};
ghost use Rattle.amplitudes.specs.Amplitudes.{finite_c};
ghost use Rattle.merge.specs.Records.{record_at, record_from, records, key_of, record_bit, new_key, amplitude_of, finite_record, moderate_record, encode};

use amplitudes::Complex;

#[derive(Clone, Copy)]
pub struct Record<'a> {
    pub words: &'a [u64],
    pub n: usize,
    ghost whole: { length words.now ≡ n + 2 },
}

// The records that words hold whole.
#[derive(Clone, Copy)]
pub struct Records<'a> {
    pub words: &'a [u64],
    pub n: usize,
    ghost small: { n + 2 < 2 ^ 64 },
}

impl<'a> Record<'a> {
    // The record that begins at a word.
    pub fn at(ws: &'a [u64], at: usize, n: usize) -> Record<'a>
        requires { at + (n + 2) ≤ length ws.now }
        ensures words_value { result.words.now ≡ record_from n ws.now at }
        ensures n_value { result.n ≡ n }
    {
        Record {
            words: &ws[at..at + (n + 2)],
            n,
        }
    }

    // Record r of a store.
    #[tactic(auto, unfolding(crate::specs::Records::record_at))]
    pub fn nth(ws: &'a [u64], r: usize, n: usize) -> Record<'a>
        requires { r * (n + 2) + (n + 2) ≤ length ws.now }
        ensures words_value { result.words.now ≡ record_at n ws.now r }
        ensures n_value { result.n ≡ n }
    {
        Record::at(ws, r * (n + 2), n)
    }

    // The first of the records that words hold whole, and the words after it.
    pub fn split_first(ws: &'a [u64], n: usize) -> Option<(Record<'a>, &'a [u64])>
        requires { n + 2 < 2 ^ 64 }
        ensures none { IfNone result (records n ws.now ≡ []) }
        ensures some { IfSome result (λ p. (p.0.n ≡ n)
            × (records n ws.now ≡ p.0.words.now ∷ records n p.1.now)) }
    {
        if ws.len() < n + 2 {
            return None;
        }
        let (words, rest) = ws.split_at(n + 2);
        Some((Record { words, n }, rest))
    }

    pub fn key(self) -> &'a [u64]
        ensures { result.now ≡ key_of self.entry.n self.entry.words.now }
    {
        &self.words[..self.n]
    }

    // Bit q of its key.
    pub fn bit(self, q: usize) -> bool
        requires { q / 64 < self.n }
        ensures { result ≡ record_bit self.entry.n q self.entry.words.now }
    {
        keys::bit(self.key(), q)
    }

    // Whether both patterns are those of finite floats.
    #[tactic(auto, unfolding(crate::specs::Records::finite_record, crate::specs::Records::amplitude_of))]
    pub fn is_finite(self) -> bool
        ensures { result ≡ finite_record self.entry.n self.entry.words.now }
    {
        let (re, im) = (self.n, self.n + 1);
        amplitudes::is_finite_bits(self.words[re]) && amplitudes::is_finite_bits(self.words[im])
    }

    // Whether both patterns are those of floats of moderate size.
    #[tactic(auto, unfolding(crate::specs::Records::moderate_record, crate::specs::Records::amplitude_of))]
    pub fn is_moderate(self) -> bool
        ensures { result ≡ moderate_record self.entry.n self.entry.words.now }
    {
        let (re, im) = (self.n, self.n + 1);
        amplitudes::is_moderate_bits(self.words[re]) && amplitudes::is_moderate_bits(self.words[im])
    }

    #[tactic(auto, unfolding(crate::specs::Records::finite_record, crate::specs::Records::amplitude_of))]
    pub fn amplitude(self) -> Complex
        requires { finite_record self.n self.words.now ≡ true }
        ensures { result ≡ amplitude_of self.entry.n self.entry.words.now }
    {
        let (re, im) = (self.n, self.n + 1);
        Complex {
            re: amplitudes::from_bits(self.words[re]),
            im: amplitudes::from_bits(self.words[im]),
        }
    }

    // Its key, with bit q turned over or not, over the words of dst from `to` on.
    fn put_key(self, toggled: bool, q: usize, dst: &mut [u64], to: usize)
        requires n_in_bounds { to + self.n ≤ length dst.old }
        requires q_bound { q / 64 < self.n }
        ensures { dst.new ≡ sets dst.old to (new_key self.entry.n q toggled self.entry.words.now) }
    {
        let dst = &mut dst[to..to + self.n];
        if toggled {
            keys::copy_key_toggled(self.key(), dst, q);
        } else {
            keys::copy_key(self.key(), dst);
        }
    }

    // An entry over the words of dst from `to` on: its key, with bit q turned over or not, and an
    // amplitude. Every other word of dst stays.
    pub fn put(self, toggled: bool, q: usize, a: Complex, dst: &mut [u64], to: usize)
        requires n_in_bounds { to + (self.n + 2) ≤ length dst.old }
        requires q_bound { q / 64 < self.n }
        requires a_value { finite_c a ≡ true }
        ensures { dst.new ≡ sets dst.old to
            (encode (record { key = new_key self.entry.n q toggled self.entry.words.now; amp = a })) }
    {
        self.put_key(toggled, q, dst, to);
        let re = to + self.n;
        let im = re + 1;
        dst[re] = amplitudes::to_bits(a.re);
        dst[im] = amplitudes::to_bits(a.im);
    }
}
