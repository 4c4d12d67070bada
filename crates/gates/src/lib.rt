// A gate on a qubit (`perform_u4`, `do_u4_count` and `do_u4_write` of statevector.rs): a counting
// and a writing pass over pairs of records, straight by the tag, or after a repartition; and a pass
// that looks at every result, for parts so large that one may overflow.
//
// The state is tested by the first pass over its records: by the tag the counting pass itself, else
// a quick look that also counts for the repartition. Where one finds something amiss, or the gate
// is not of moderate size, every test is made by itself.
#![tactic(auto)]

ghost use Rattle.std.specs.Prelude.{◌≡◌, IfSome, true, false, ◌&&◌, ℕ, ◌+◌, ◌/◌, ◌*◌, ◌≤◌, ◌<◌, length, ltb, [], ◌∷◌, None, Ok, Some};
ghost use Rattle.std.proofs.lemmas.List.Edits.{sets};
ghost use Rattle.amplitudes.specs.Amplitudes.{finite_c};
ghost use Rattle.amplitudes.specs.Pairs.{combined, is_kept};
ghost use Rattle.merge.specs.Records.{records, part, amplitude_of, finite_record, capacity};
ghost use Rattle.merge.specs.Sorting.{side, parted_words};
ghost use Rattle.merge.specs.Walks.{pairs_left};
ghost use Rattle.gates.specs.Passes.{part_left, FinitePairs, FiniteUnpaired, result_into, kept_counts, CountedAs, finite_of, sum_record, put_sum, next_offset, put_products, put_sums, next_offsets, pairs_finite, pair_words, SizesCounted, Fitting, AllModerate, Parted, after_repartition};
ghost use Rattle.statevector.specs.Scans.{sound_one};
ghost use Rattle.statevector.specs.States.{tag_is, entries_of, records_of};
ghost use Rattle.amplitudes.specs.Moderate.{moderate_gate};
ghost use Rattle.gates.specs.Gate.{performed-response, gate_response, gate_by_front, gate_call};
ghost use Rattle.statevector.specs.Laws.{Sound};
ghost use Rattle.statevector.specs.Refusals.{first};
ghost use Rattle.statevector.specs.Tests.{head_rows, qubit_row};

use amplitudes::{Accumulated, Combined, Complex, U4};
use merge::{MergeEq, Pair, Pairs, Record, Records};
use statevector::{Refusal, Side, State};

// What a gate that was done gives.
#[derive(Clone, Copy)]
pub struct Gated {
    pub state: State,
}

// How many entries the new parts have, and whether every record has a partner.
#[derive(Clone, Copy)]
struct Sizes {
    n0: usize,
    n1: usize,
    paired: bool,
}

// Whether two records that are partners are sound by qubit q, as records of parts 0 and 1 before
// those that are left.
fn are_both_sound(x: Record, y: Record, left: Pairs, q: usize) -> bool
    ensures { result ≡
        (sound_one x.entry.n (Some q) false x.entry.words.now
        (records x.entry.n left.entry.lhs.now)
        && sound_one y.entry.n (Some q) true y.entry.words.now
        (records y.entry.n left.entry.rhs.now)) }
{
    statevector::is_sound(x, left.lhs, Some(q), false)
        && statevector::is_sound(y, left.rhs, Some(q), true)
}

// How many of a pair's sums are kept: of each new part's 0 or 1.
#[derive(Clone, Copy)]
struct KeptCounts {
    n0: usize,
    n1: usize,
}

// The same of two records that are partners.
fn count_kept(x: Record, y: Record, g: U4) -> KeptCounts
    requires { (finite_record x.n x.words.now ≡ true) × (finite_record y.n y.words.now ≡ true) }
    ensures { result ≡ kept_counts (combined g false
        (amplitude_of x.entry.n x.entry.words.now)
        (amplitude_of y.entry.n y.entry.words.now)) }
{
    let p = g.combine(false, x.amplitude(), y.amplitude());
    KeptCounts {
        n0: usize::from(p.stay.verdict.is_kept()),
        n1: usize::from(p.flip.verdict.is_kept()),
    }
}

// The counting pass. Records that were not tested are tested as they are met, before their
// amplitudes are read: whether they rise, are on their sides of the qubit and of moderate size;
// where one isn't, nothing is counted. No call has n = 0: the test tells the compiler so, and it
// need not test again for each record. The writing pass does the same.
fn do_u4_count(pairs: Pairs, g: U4, tested: bool) -> Option<Sizes>
    requires q_bound { pairs.q / 64 < pairs.n }
    requires finite_pairs { tested ≡ true → FinitePairs pairs }
    ensures { CountedAs pairs.entry.n pairs.entry.q g tested
        (part_left false pairs.entry) (part_left true pairs.entry) result }
{
    if pairs.n == 0 {
        return None;
    }
    let q = pairs.q;
    let mut left = pairs;
    let mut alone = 0;
    let mut k0 = 0;
    let mut k1 = 0;
    while let Some(pair) = left.next() {
        match pair {
            Pair::Lhs(x) => {
                if !tested && !statevector::is_sound(x, left.lhs, Some(q), false) {
                    return None;
                }
                alone += 1;
            }
            Pair::Rhs(y) => {
                if !tested && !statevector::is_sound(y, left.rhs, Some(q), true) {
                    return None;
                }
                alone += 1;
            }
            Pair::Both(x, y) => {
                if !tested && !are_both_sound(x, y, left, q) {
                    return None;
                }
                let kept = count_kept(x, y, g);
                k0 += kept.n0;
                k1 += kept.n1;
            }
        }
    }
    Some(Sizes {
        n0: alone + k0,
        n1: alone + k1,
        paired: alone == 0,
    })
}

// The words that the next records of the two new parts go to: part 0's is word o0 of the store, and
// part 1's is word o1 of its tail from word `at` on, which is lent.
#[derive(Clone, Copy)]
struct Offsets {
    at: usize,
    o0: usize,
    o1: usize,
}

// The two products of a record without a partner at their offsets. `set`: whether the qubit's bit
// is set in its key. Gives the offsets after them.
fn put_unpaired(x: Record, q: usize, g: U4, set: bool, back: &mut [u64], o: Offsets) -> Offsets
    requires q_bound { q / 64 < x.n }
    requires x_value { finite_record x.n x.words.now ≡ true }
    requires finite_unpaired { FiniteUnpaired g set (amplitude_of x.n x.words.now) }
    requires n_in_bounds { (o.o0 + (x.n + 2) ≤ length back.old)
        × (o.at + (o.o1 + (x.n + 2)) ≤ length back.old) }
    ensures value { result ≡ next_offsets x.entry.n true true o }
    ensures back_after { back.new ≡ put_products x.entry.n q g set o x.entry.words.now back.old }
{
    let p = g.apply(set, x.amplitude());
    let product0 = if set { p.flip } else { p.stay };
    let product1 = if set { p.stay } else { p.flip };
    x.put(set, q, product0, back, o.o0);
    x.put(!set, q, product1, &mut back[o.at..], o.o1);
    let size = x.n + 2;
    Offsets {
        o0: o.o0 + size,
        o1: o.o1 + size,
        ..o
    }
}

// A sum at word o of dst under the key of a record, where it is kept. Gives the word that the next
// one goes to.
fn put_kept(x: Record, q: usize, a: Accumulated, dst: &mut [u64], o: usize) -> usize
    requires q_bound { q / 64 < x.n }
    requires sum_value { finite_c a.sum ≡ true }
    requires n_in_bounds { is_kept a.verdict ≡ true → o + (x.n + 2) ≤ length dst.old }
    ensures value { result ≡ next_offset x.entry.n (is_kept a.verdict) o }
    ensures dst_after { dst.new
        ≡ put_sum (is_kept a.verdict) dst.old o (sum_record x.entry.n q x.entry.words.now a) }
{
    if !a.verdict.is_kept() {
        return o;
    }
    x.put(false, q, a.sum, dst, o);
    o + (x.n + 2)
}

// The two sums of records that are partners at their offsets, where they are kept. Gives the
// offsets after them.
fn put_both(x: Record, y: Record, q: usize, p: Combined, back: &mut [u64], o: Offsets) -> Offsets
    requires q_bound { (q / 64 < x.n) × (y.n ≡ x.n) }
    requires sum_value { (finite_c p.stay.sum ≡ true) × (finite_c p.flip.sum ≡ true) }
    requires at_in_bounds { (o.at ≤ length back.old)
        × (is_kept p.stay.verdict ≡ true → o.o0 + (x.n + 2) ≤ length back.old)
        × (is_kept p.flip.verdict ≡ true → o.at + (o.o1 + (x.n + 2)) ≤ length back.old) }
    ensures value { result
        ≡ next_offsets x.entry.n (is_kept p.stay.verdict) (is_kept p.flip.verdict) o }
    ensures back_after { back.new
        ≡ put_sums x.entry.n q p o x.entry.words.now y.entry.words.now back.old }
{
    let o0 = put_kept(x, q, p.stay, back, o.o0);
    let o1 = put_kept(y, q, p.flip, &mut back[o.at..], o.o1);
    Offsets { o0, o1, ..o }
}

// The writing pass: part 0 goes to the start of the back store, part 1 to record n0 and on. Every
// other word stays.
fn do_u4_write(pairs: Pairs, g: U4, back: &mut [u64], n0: usize)
    requires q_bound { pairs.q / 64 < pairs.n }
    requires finite_pairs { FinitePairs pairs }
    requires fitting { Fitting pairs.n pairs.q g (pairs_left pairs) n0 back.old }
    ensures { back.new ≡ sets back.old 0
        (pair_words pairs.entry.n pairs.entry.q g (pairs_left pairs.entry)) }
{
    if pairs.n == 0 {
        return;
    }
    let q = pairs.q;
    let at = n0 * (pairs.n + 2);
    let mut o = Offsets { at, o0: 0, o1: 0 };
    for pair in pairs {
        match pair {
            Pair::Lhs(x) => o = put_unpaired(x, q, g, false, back, o),
            Pair::Rhs(y) => o = put_unpaired(y, q, g, true, back, o),
            Pair::Both(x, y) => {
                let sums = g.combine(false, x.amplitude(), y.amplitude());
                o = put_both(x, y, q, sums, back, o);
            }
        }
    }
}

// Whether both amplitudes are finite.
fn are_finite(a: Complex, b: Complex) -> bool
    ensures { result ≡ (finite_c a && finite_c b) }
{
    a.is_finite() && b.is_finite()
}

// Whether the new amplitudes of a pair are finite, dropped sums too; where there is no pair, so
// they are.
fn is_finite_new(g: U4, m: MergeEq) -> bool
    ensures { result ≡ finite_of g m }
{
    match m {
        MergeEq::Lhs(x) => {
            let p = g.apply(false, x);
            are_finite(p.stay, p.flip)
        }
        MergeEq::Rhs(y) => {
            let p = g.apply(true, y);
            are_finite(p.flip, p.stay)
        }
        MergeEq::Both(x, y) => {
            let p = g.combine(false, x, y);
            are_finite(p.stay.sum, p.flip.sum)
        }
        MergeEq::End => true,
    }
}

// Whether every new part is finite, dropped sums included.
fn do_u4_finite(pairs: Pairs, g: U4) -> bool
    requires { FinitePairs pairs }
    ensures { result ≡ pairs_finite pairs.entry.n g (pairs_left pairs.entry) }
{
    for pair in pairs {
        if !is_finite_new(g, pair.amplitudes()) {
            return false;
        }
    }
    true
}

// The gate's results, of pairs that were counted, over the start of dst: 9 before any word is
// written.
fn write_results(
    s: State,
    mark: Side,
    g: U4,
    pairs: Pairs,
    c: Sizes,
    dst: &mut [u64],
) -> Result<Gated, Refusal>
    requires parted { Parted pairs.n pairs.q (part_left false pairs) (part_left true pairs) }
    requires n_value { pairs.n ≡ s.width }
    requires finite { pairs_finite pairs.n g (pairs_left pairs) ≡ true }
    requires sizes_counted { SizesCounted pairs.n pairs.q g (pairs_left pairs) c }
    ensures { record { answer = result; store = dst.new }
        ≡ result_into s mark g pairs.entry dst.old }
{
    let Pairs { lhs, rhs, n, q, .. } = pairs;
    if dst.len() / (n + 2) < c.n0 + c.n1 {
        return Err(Refusal::Full);
    }
    let paired = c.paired;
    let pairs = Pairs {
        lhs,
        rhs,
        n,
        q,
        paired,
    };
    do_u4_write(pairs, g, dst, c.n0);
    Ok(Gated {
        state: State {
            front: mark,
            n0: c.n0,
            n1: c.n1,
            tag: Some(q),
            ..s
        },
    })
}

// The same of records that were tested: 8, then 9. `moderate`: that nothing can overflow, so that
// no result is looked at.
fn test_and_write(
    s: State,
    mark: Side,
    g: U4,
    pairs: Pairs,
    moderate: bool,
    dst: &mut [u64],
) -> Result<Gated, Refusal>
    requires parted { Parted pairs.n pairs.q (part_left false pairs) (part_left true pairs) }
    requires n_value { pairs.n ≡ s.width }
    requires finite { moderate ≡ true → pairs_finite pairs.n g (pairs_left pairs) ≡ true }
    ensures { record { answer = result; store = dst.new }
        ≡ result_into s mark g pairs.entry dst.old }
{
    if !moderate && !do_u4_finite(pairs, g) {
        return Err(Refusal::Overflow);
    }
    let c = do_u4_count(pairs, g, true).unwrap();
    write_results(s, mark, g, pairs, c, dst)
}

// The records, `ones` of which have bit q set, are repartitioned by q into the back store; the
// results go over the front store.
fn repartition_first(
    s: State,
    q: usize,
    g: U4,
    ones: usize,
    moderate: bool,
    front: &mut [u64],
    back: &mut [u64],
) -> Result<Gated, Refusal>
    requires sound { Sound s front.old × (q < 64 * s.width) }
    requires ones_value { ones ≡ length
        (side s.width q true (part s.width front.old 0 (s.n0 + s.n1))) }
    requires all_moderate { moderate ≡ true → AllModerate s front.old g }
    ensures { record { answer = result; front = front.new; back = back.new } ≡
        after_repartition (ltb (capacity s.width back.old) (s.n0 + s.n1)) s q g
        (entries_of s front.old) front.old back.old
        (sets back.old 0
        (parted_words s.width q (records_of s front.old))) }
{
    let n = s.width;
    let all = s.n0 + s.n1;
    if back.len() / (n + 2) < all {
        return Err(Refusal::Full);
    }
    merge::repartition(front, s.n0, s.n1, n, q, ones, back);
    let pairs = Pairs::new(back, all - ones, all, n, q);
    test_and_write(s, s.front, g, pairs, moderate, front)
}

// Every test by itself.
fn gate_tested(
    s: State,
    q: usize,
    g: U4,
    front: &mut [u64],
    back: &mut [u64],
) -> Result<Gated, Refusal>
    requires { first (head_rows s front.old (qubit_row s q ∷ [])) ≡ Ok tt }
    ensures { record { answer = result; front = front.new; back = back.new }
        ≡ gate_by_front s q g front.old back.old }
{
    statevector::test_records_with(s, g.is_finite(), front)?;
    let all = s.n0 + s.n1;
    if s.tag == Some(q) {
        let pairs = Pairs::new(front, s.n0, all, s.width, q);
        test_and_write(s, s.front.other(), g, pairs, false, back)
    } else {
        let ones = Records::of(front, 0, all, s.width).count_set(q);
        repartition_first(s, q, g, ones, false, front, back)
    }
}

// By the tag: the counting pass tests the records as it meets them.
fn gate_by_tag(
    s: State,
    q: usize,
    g: U4,
    front: &mut [u64],
    back: &mut [u64],
) -> Result<Gated, Refusal>
    requires q_value { first (head_rows s front.old (qubit_row s q ∷ [])) ≡ Ok tt }
    requires q_value_2 { (tag_is s.tag q ≡ true) × (moderate_gate g ≡ true) }
    ensures { record { answer = result; front = front.new; back = back.new }
        ≡ gate_by_front s q g front.old back.old }
{
    let pairs = Pairs::new(front, s.n0, s.n0 + s.n1, s.width, q);
    match do_u4_count(pairs, g, false) {
        Some(c) => write_results(s, s.front.other(), g, pairs, c, back),
        None => gate_tested(s, q, g, front, back),
    }
}

// By another qubit than the tag: a look at the state counts what the repartition has to know.
fn gate_by_another(
    s: State,
    q: usize,
    g: U4,
    front: &mut [u64],
    back: &mut [u64],
) -> Result<Gated, Refusal>
    requires q_value { first (head_rows s front.old (qubit_row s q ∷ [])) ≡ Ok tt }
    requires q_value_2 { (tag_is s.tag q ≡ false) × (moderate_gate g ≡ true) }
    ensures { record { answer = result; front = front.new; back = back.new }
        ≡ gate_by_front s q g front.old back.old }
{
    match statevector::quick_scan(s, q, front) {
        Some(ones) => repartition_first(s, q, g, ones.zero + ones.one, true, front, back),
        None => gate_tested(s, q, g, front, back),
    }
}

// A gate over the front and the back store: by the tag straight into the back store, else after a
// repartition into it.
fn gate_by_front(
    s: State,
    q: usize,
    g: U4,
    front: &mut [u64],
    back: &mut [u64],
) -> Result<Gated, Refusal>
    ensures { record { answer = result; front = front.new; back = back.new }
        ≡ gate_by_front s q g front.old back.old }
{
    statevector::test_head_with_qubit(s, q, front)?;
    if !g.is_moderate() {
        gate_tested(s, q, g, front, back)
    } else if s.tag == Some(q) {
        gate_by_tag(s, q, g, front, back)
    } else {
        gate_by_another(s, q, g, front, back)
    }
}

// A gate on qubit q of a state in two lent stores.
pub fn perform_u4(
    s: State,
    q: usize,
    g: U4,
    left: &mut [u64],
    right: &mut [u64],
) -> Result<Gated, Refusal>
    ensures right_after { record { answer = result; left = left.new; right = right.new }
        ≡ gate_call s q g left.old right.old }
    ensures result_value { performed-response result
        ≡ gate_response s q g left.old right.old }
{
    match s.front {
        Side::Left => gate_by_front(s, q, g, left, right),
        Side::Right => gate_by_front(s, q, g, right, left),
    }
}
