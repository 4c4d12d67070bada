// Any call by its number, on lent words: what the calls on bytes and the program `replay` use. The
// calls are those of `calls`, and the run of `step_lists`.
#![tactic(auto)]

ghost use Rattle.std.specs.Prelude.{◌≡◌};
ghost use Rattle.words.specs.Words.{answer_number};
ghost use Rattle.numbered.specs.Numbered.{call_at};
ghost use Rattle.numbered.specs.Names.{Names};

use words::CallError;

// Every call: 1 to 3 are also the kinds of a step.
#[derive(Clone, Copy, PartialEq, Eq, Debug)]
pub enum CallName {
    PerformU4,
    Measure,
    Premeasure,
    Fresh,
    ImportDense,
    Check,
    Lookup,
    Export,
    CollapseDelta,
    Forecast,
    Run,
    Compare,
}

impl TryFrom<u64> for CallName {
    type Error = CallError;

    ghost try_from_gives = { Names };

    fn try_from(number: u64) -> Result<CallName, CallError> {
        match number {
            1 => Ok(CallName::PerformU4),
            2 => Ok(CallName::Measure),
            3 => Ok(CallName::Premeasure),
            4 => Ok(CallName::Fresh),
            5 => Ok(CallName::ImportDense),
            6 => Ok(CallName::Check),
            7 => Ok(CallName::Lookup),
            8 => Ok(CallName::Export),
            9 => Ok(CallName::CollapseDelta),
            10 => Ok(CallName::Forecast),
            11 => Ok(CallName::Run),
            12 => Ok(CallName::Compare),
            _ => Err(CallError::NoCall),
        }
    }
}

// The numbers that a call takes: specs/Numbered.antt says which.
#[derive(Clone, Copy)]
pub struct Numbers {
    pub a: usize,
    pub b: u64,
    pub c: u64,
}

// All that a call is lent: the words that it may change, and what it takes beside them, as
// specs/Numbered.antt says.
#[derive(Drop)]
pub struct Lent<'a, T> {
    pub state: &'a mut [T],
    pub left: &'a mut [T],
    pub right: &'a mut [T],
    pub third: &'a mut [T],
    pub out: &'a mut [T],
    pub numbers: Numbers,
    pub arg: &'a [T],
    pub arg2: &'a [T],
}

// The call with this number. It leaves the words that it has no use for: none uses a third buffer
// as yet.
pub fn call(number: u64, lent: Lent<'_, u64>) -> Result<(), CallError>
    ensures { record {
      answer = answer_number result;
      state = lent.exit.0.now;
      left = lent.exit.1.0.now;
      right = lent.exit.1.1.0.now;
      third = lent.exit.1.1.1.0.now;
      out = lent.exit.1.1.1.1.0.now;
    }
        ≡ call_at number lent.entry.state.now lent.entry.numbers lent.entry.arg.now
        lent.entry.arg2.now lent.entry.left.now lent.entry.right.now lent.entry.third.now
        lent.entry.out.now }
{
    let Lent {
        state,
        left,
        right,
        third: _,
        out,
        numbers: Numbers { a, b, c },
        arg,
        arg2,
    } = lent;
    let name = CallName::try_from(number)?;
    match name {
        CallName::PerformU4 => calls::perform_u4(state, a, arg, left, right, out),
        CallName::Measure => calls::measure(state, a, b, c, left, right),
        CallName::Premeasure => calls::premeasure(state, a, left, right, out),
        CallName::Fresh => calls::fresh(a, state, left),
        CallName::ImportDense => calls::import_dense(a, arg, b, state, left, right),
        CallName::Check => calls::check(state, left, right),
        CallName::Lookup => calls::lookup(state, arg, left, right, out),
        CallName::Export => calls::export(state, left, right, out),
        CallName::CollapseDelta => calls::collapse_delta(
            state, a, arg, b as usize, left, right, out,
        ),
        CallName::Forecast => calls::forecast(state, a, arg, left, right, out),
        CallName::Run => step_lists::run_words(state, arg, left, right, out),
        CallName::Compare => calls::compare(a, b, c as usize, arg, arg2, out),
    }
}
