// Any call on bytes: a state, stores, keys, gates, dense lists and steps are words as files hold
// them (SPECIFICATION 1.3). They are decoded into arrays, the call is made on those, and what it
// may change is written back. What stray last bytes mean, which are no whole word, specs/Files.antt
// says.
ghost use Rattle.std.specs.Prelude.{◌≡◌, true};
ghost use Rattle.words.specs.Words.{answer_number};
ghost use Rattle.probe.specs.Files.{fits, all_fit, call_decoded, call_bytes};

use crate::buffers::{Buffer, WORDS};
use numbered::{Lent, Numbers};
use words::CallError;

fn fits(bytes: &[u8]) -> bool
    ensures { result ≡ fits bytes.now }
{
    bytes.len() <= 8 * WORDS
}

// The call with this number on the words of slices that all fit.
fn call_decoded(number: u64, lent: Lent<'_, u8>) -> Result<(), CallError>
    requires { all_fit lent.state.now lent.arg.now lent.arg2.now lent.left.now lent.right.now
        lent.third.now lent.out.now ≡ true }
    ensures { record {
      answer = answer_number result;
      state = lent.exit.0.now;
      left = lent.exit.1.0.now;
      right = lent.exit.1.1.0.now;
      third = lent.exit.1.1.1.0.now;
      out = lent.exit.1.1.1.1.0.now;
    }
        ≡ call_decoded number lent.entry.state.now lent.entry.numbers lent.entry.arg.now
        lent.entry.arg2.now lent.entry.left.now lent.entry.right.now lent.entry.third.now
        lent.entry.out.now }
{
    let Lent {
        state,
        left,
        right,
        third,
        out,
        numbers,
        arg,
        arg2,
    } = lent;
    let mut s = Buffer::zeros();
    s.exact(state);
    let s = s.as_mut_words();
    let mut l = Buffer::zeros();
    l.whole(left);
    let l = l.as_mut_words();
    let mut r = Buffer::zeros();
    r.whole(right);
    let r = r.as_mut_words();
    let mut t = Buffer::zeros();
    t.whole(third);
    let t = t.as_mut_words();
    let mut o = Buffer::zeros();
    o.exact(out);
    let o = o.as_mut_words();
    let mut x = Buffer::zeros();
    x.argument(number, arg);
    let mut y = Buffer::zeros();
    y.exact(arg2);
    let lent = Lent {
        state: s,
        left: l,
        right: r,
        third: t,
        out: o,
        numbers,
        arg: x.as_words(),
        arg2: y.as_words(),
    };
    let answer = numbered::call(number, lent);
    text::put_words(s, state);
    text::put_words(l, left);
    text::put_words(r, right);
    text::put_words(t, third);
    text::put_words(o, out);
    answer
}

// The call with this number: it counts as crates/numbered/specs/Numbered.antt does, and so do a, b, c
// and arg. Of a run up to 819 steps. Where a slice has more bytes than fit, nothing changes.
#[tactic(auto, unfolding(crate::specs::Files::call_bytes))]
#[unsafe(no_mangle)]
pub extern "C" fn butrask_call_bytes(
    number: u64,
    state: &mut [u8],
    a: usize,
    b: u64,
    c: u64,
    arg: &[u8],
    arg2: &[u8],
    left: &mut [u8],
    right: &mut [u8],
    third: &mut [u8],
    out: &mut [u8],
) -> u64
    ensures { record {
      answer = result;
      state = state.new;
      left = left.new;
      right = right.new;
      third = third.new;
      out = out.new;
    }
        ≡ call_bytes number state.old (record { a = a; b = b; c = c }) arg.now
        arg2.now left.old right.old third.old
        out.old }
{
    let all_fit = fits(state)
        && fits(arg)
        && fits(arg2)
        && fits(left)
        && fits(right)
        && fits(third)
        && fits(out);
    if !all_fit {
        return CallError::WrongBytes.number();
    }
    let lent = Lent {
        state,
        left,
        right,
        third,
        out,
        numbers: Numbers { a, b, c },
        arg,
        arg2,
    };
    words::answer_number(call_decoded(number, lent))
}
