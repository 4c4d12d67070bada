// Estimates: by how much a gate would change the length of a state, at one entry and over all of
// them (`collapse_delta` of statevector.rs). Nothing is written.
#![tactic(auto)]

ghost use Rattle.std.specs.Prelude.{◌≡◌, true, false, cond, [], Ok, Err, IfOk, IfErr, ◌+◌, ◌<◌, ◌^◌, length};
ghost use Rattle.amplitudes.specs.Amplitudes.{finite_gate};
ghost use Rattle.amplitudes.specs.Pairs.{combined};
ghost use Rattle.keys.specs.Keys.{toggle};
ghost use Rattle.merge.specs.Records.{record_at, key_of, decode, at};
ghost use Rattle.merge.specs.Pairs.{position_of};
ghost use Rattle.merge.specs.Laws.{Right};
ghost use Rattle.estimates.specs.Estimates.{dropped, pair_at, change, collapse_response, forecast_response, collapse_in, collapse_call, forecast_in, forecast_call};
ghost use Rattle.estimates.specs.Passes.{change_of, drops_of, both_of, totals_of, balance};
ghost use Rattle.statevector.specs.Refusals.{first};
ghost use Rattle.statevector.specs.States.{part_of, entries_of, tag_is};
ghost use Rattle.statevector.specs.Tests.{qubit_tests};

use amplitudes::{Complex, U4, Verdict};
use merge::{Pair, Pairs, Record};
use statevector::{Refusal, State};

// What a gate does to the length: how many entries have no partner, each of which becomes two, and
// how many sums are dropped.
#[derive(Clone, Copy)]
pub struct Change {
    pub unpaired: usize,
    pub dropped: usize,
}

impl Change {
    // By how much the length changes.
    fn length(self) -> i64
        requires unpaired_bound { self.unpaired < 2 ^ 61 }
        requires dropped_bound { self.dropped < 2 ^ 62 }
        ensures { result ≡ balance self.unpaired self.dropped }
    {
        2 * self.unpaired as i64 - self.dropped as i64
    }
}

fn count_dropped(v: Verdict) -> usize
    ensures { result ≡ dropped v }
{
    usize::from(!v.is_kept())
}

// How many sums of a pair are dropped, if both are finite: a's products are the first operands.
// `set`: whether the bit is set in a's key.
fn drops(g: U4, set: bool, a: Complex, b: Complex) -> Result<usize, Refusal>
    ensures { result ≡ drops_of (combined g set a b) }
{
    let p = g.combine(set, a, b);
    if p.stay.sum.is_finite() && p.flip.sum.is_finite() {
        Ok(count_dropped(p.stay.verdict) + count_dropped(p.flip.verdict))
    } else {
        Err(Refusal::Overflow)
    }
}

// The same at two entries that are partners. Each has its products as first operands once.
fn both_drops(g: U4, a: Complex, b: Complex) -> Result<usize, Refusal>
    ensures { result ≡ both_of (drops_of (combined g false a b)) (drops_of (combined g true b a)) }
{
    let k = drops(g, false, a, b)?;
    let l = drops(g, true, b, a)?;
    Ok(k + l)
}

// What a call goes on with once the tests accept it: a gate on a qubit of a state, and the state's
// words.
#[derive(Clone, Copy)]
struct Accepted<'a> {
    s: State,
    q: usize,
    g: U4,
    ws: &'a [u64],
    ghost fine: { first (qubit_tests s ws.now q (finite_gate g) []) ≡ Ok tt },
}

impl<'a> Accepted<'a> {
    // The call, or why the tests refuse it.
    fn new(s: State, q: usize, g: U4, ws: &'a [u64]) -> Result<Accepted<'a>, Refusal>
        ensures accepted { IfOk result (λ a. (a.s ≡ s) × (a.q ≡ q) × (a.g ≡ g)
            × (a.ws.now ≡ ws.now)) }
        ensures refused { IfErr result (λ r. first (qubit_tests s ws.now q (finite_gate g) [])
            ≡ Err r) }
    {
        statevector::test_with_qubit(s, q, g.is_finite(), ws)?;
        Ok(Accepted { s, q, g, ws })
    }

    // How many records there are.
    fn len(&self) -> usize
        ensures { result ≡ self.now.s.n0 + self.now.s.n1 }
    {
        self.s.n0 + self.s.n1
    }

    // Record r.
    fn record(&self, r: usize) -> Record<'a>
        requires { r < self.now.s.n0 + self.now.s.n1 }
        ensures words_value { result.words.now ≡ record_at self.now.s.width self.now.ws.now r }
        ensures n_value { result.n ≡ self.now.s.width }
    {
        Record::nth(self.ws, r, self.s.width)
    }

    // Where a key stands in part 0 or in part 1.
    fn find(&self, part: bool, key: &[u64]) -> Option<usize>
        requires { length key.now ≡ self.now.s.width }
        ensures { result ≡ position_of self.now.s.width key.now (cond part self.now.s.n0 0)
            (part_of part self.now.s self.now.ws.now) }
    {
        let n = self.s.width;
        let n0 = self.s.n0;
        if part {
            merge::find(self.ws, n0, self.len(), n, key)
        } else {
            merge::find(self.ws, 0, n0, n, key)
        }
    }

    // Where the partner's key of record r stands: by the tag's qubit in the other part, else in
    // either. The key is made in words that are lent.
    fn partner(&self, r: usize, key: &mut [u64]) -> Option<usize>
        requires r_bound { r < self.now.s.n0 + self.now.s.n1 }
        requires key_len { length key.old ≡ self.now.s.width }
        ensures { Right self.now.s.width self.now.ws.now
            (toggle self.now.q (key_of self.now.s.width
            (record_at self.now.s.width self.now.ws.now r))) 0
            (self.now.s.n0 + self.now.s.n1)
            (at (toggle self.now.q (key_of self.now.s.width
            (record_at self.now.s.width self.now.ws.now r)))
            (entries_of self.now.s self.now.ws.now)) result }
    {
        keys::copy_key_toggled(self.record(r).key(), key, self.q);
        if self.s.tag == Some(self.q) {
            return self.find(r < self.s.n0, key);
        }
        match self.find(false, key) {
            Some(j) => Some(j),
            None => self.find(true, key),
        }
    }

    // What the gate does to the length at record r. Its products are the first operands.
    fn change_at(&self, r: usize, key: &mut [u64]) -> Result<Change, Refusal>
        requires r_bound { r < self.now.s.n0 + self.now.s.n1 }
        requires key_len { length key.old ≡ self.now.s.width }
        ensures { result ≡ change_of (pair_at self.now.q self.now.g
            (entries_of self.now.s self.now.ws.now)
            (decode self.now.s.width (record_at self.now.s.width self.now.ws.now r))) }
    {
        let Some(j) = self.partner(r, key) else {
            return Ok(Change {
                unpaired: 1,
                dropped: 0,
            });
        };
        let x = self.record(r);
        let y = self.record(j);
        let dropped = drops(self.g, x.bit(self.q), x.amplitude(), y.amplitude())?;
        Ok(Change {
            unpaired: 0,
            dropped,
        })
    }

    // The changes over all entries, with a search at each.
    fn total_changes(&self) -> Result<Change, Refusal>
        ensures { result ≡ totals_of self.now.q self.now.g
            (entries_of self.now.s self.now.ws.now) }
    {
        let mut words = [0; 62];
        let key = &mut words[..self.s.width];
        let mut unpaired = 0;
        let mut dropped = 0;
        for r in 0..self.len() {
            let c = self.change_at(r, key)?;
            unpaired += c.unpaired;
            dropped += c.dropped;
        }
        Ok(Change { unpaired, dropped })
    }

    // The changes over all entries by the tag's qubit, in one walk along both parts.
    fn total_by_tag(&self) -> Result<Change, Refusal>
        requires { tag_is self.now.s.tag self.now.q ≡ true }
        ensures { result ≡ totals_of self.now.q self.now.g
            (entries_of self.now.s self.now.ws.now) }
    {
        let mut unpaired = 0;
        let mut dropped = 0;
        for pair in Pairs::new(self.ws, self.s.n0, self.len(), self.s.width, self.q) {
            match pair {
                Pair::Lhs(_) | Pair::Rhs(_) => unpaired += 1,
                Pair::Both(x, y) => dropped += both_drops(self.g, x.amplitude(), y.amplitude())?,
            }
        }
        Ok(Change { unpaired, dropped })
    }

    // The changes over all entries: by the tag's qubit in one walk, else with a search at each.
    fn totals(&self) -> Result<Change, Refusal>
        ensures { result ≡ totals_of self.now.q self.now.g
            (entries_of self.now.s self.now.ws.now) }
    {
        if self.s.tag == Some(self.q) {
            self.total_by_tag()
        } else {
            self.total_changes()
        }
    }

    // The estimate at entry i modulo the number of entries.
    fn estimate(&self, i: usize) -> Result<i64, Refusal>
        ensures { result ≡ collapse_in self.now.s self.now.q self.now.g i self.now.ws.now }
    {
        let all = self.len();
        if all == 0 {
            return Ok(0);
        }
        let mut words = [0; 62];
        let change = self.change_at(i % all, &mut words[..self.s.width])?;
        Ok(change.length())
    }

    // The sum of the estimates at all entries, halved toward zero.
    fn forecast(&self) -> Result<i64, Refusal>
        ensures { result ≡ forecast_in self.now.s self.now.q self.now.g self.now.ws.now }
    {
        let change = self.totals()?;
        Ok(change.length() / 2)
    }
}

// By how much a gate on qubit q changes the length at entry i modulo the number of entries: 2
// without a partner, else minus the number of dropped sums; 0 of an empty state.
#[tactic(auto, unfolding(crate::specs::Estimates::collapse_call), using(crate::proofs::Estimating::responses))]
pub fn collapse_delta(
    s: State,
    q: usize,
    g: U4,
    i: usize,
    left: &[u64],
    right: &[u64],
) -> Result<i64, Refusal>
    ensures value { result ≡ collapse_call s q g i left.now right.now }
    ensures result_value { change result
        ≡ collapse_response s q g i left.now right.now }
{
    Accepted::new(s, q, g, s.front.store(left, right))?.estimate(i)
}

// The sum of the estimates at all entries, halved toward zero.
#[tactic(auto, unfolding(crate::specs::Estimates::forecast_call), using(crate::proofs::Estimating::responses))]
pub fn forecast(s: State, q: usize, g: U4, left: &[u64], right: &[u64]) -> Result<i64, Refusal>
    ensures value { result ≡ forecast_call s q g left.now right.now }
    ensures result_value { change result ≡ forecast_response s q g left.now right.now }
{
    Accepted::new(s, q, g, s.front.store(left, right))?.forecast()
}
