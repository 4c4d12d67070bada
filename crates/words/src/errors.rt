// Why a call on words is not done, and the number that says so at the C boundary.
ghost use Rattle.std.specs.Prelude.{◌≡◌};
ghost use Rattle.words.specs.declared.errors.CallError.TheVariants.{Refused};
ghost use Rattle.words.specs.Words.{error_number, answer_number};

use state::Refusal;

// The call refuses (SPECIFICATION 10.1); or, which are no refusals: a lent state, gate or slice for
// results has the wrong length, a slice has more bytes than fit, no call has the number.
#[derive(Clone, Copy, PartialEq, Eq, Debug)]
pub enum CallError {
    Refused(Refusal),
    WrongLength,
    WrongBytes,
    NoCall,
}

impl CallError {
    pub fn number(self) -> u64
        ensures { result ≡ error_number self }
    {
        match self {
            CallError::Refused(r) => r.number(),
            CallError::WrongLength => 100,
            CallError::WrongBytes => 101,
            CallError::NoCall => 102,
        }
    }
}

impl From<Refusal> for CallError {
    ghost from_gives = { λ r e. e ≡ Refused r };

    fn from(r: Refusal) -> CallError {
        CallError::Refused(r)
    }
}

// The number of what a call answers: 0 where it was done.
pub fn answer_number(answer: Result<(), CallError>) -> u64
    ensures { result ≡ answer_number answer }
{
    match answer {
        Ok(()) => 0,
        Err(e) => e.number(),
    }
}
