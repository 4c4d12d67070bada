// The program `trial` (SPECIFICATION 9): takes the steps of standard input, 80 bytes each, from a
// fresh state of width 1 with 1,024 records a store, and prints a line for each step, then the tag,
// then a line for each record. A refused step does not end it. It ends at the end of the input, and
// at a read that fails as at the end. What each line holds is proved; that the lines are written,
// and in which order, no contract can say: see `output_of` of specs/Whole.antt.
#![tactic(auto)]

ghost use Rattle.std.specs.Prelude.{◌≡◌, ℕ};
ghost use Rattle.run.specs.Laws.{NoNan};
ghost use Rattle.run.specs.Steps.{refused_step};
ghost use Rattle.trial.specs.Session.{step_in, answer_line, tag_lines, record_text, turn, Reached};
ghost use Rattle.trial.specs.Whole.{progress_in, fresh_trial};

use run::{Step, Taken};
use state::{Refusal, State};
use text::Line;

// ---- steps

// The step of ten words that the bytes hold.
fn decode(bytes: &[u8; 80]) -> Step
    ensures { result ≡ step_in bytes.now }
{
    let mut words: [u64; 10] = [0; 10];
    text::read_words(bytes, &mut words);
    run::read_step(&words, 0)
}

// ---- lines

// The line of step i: its answer, and the sizes after it. A refused step has no sums.
fn step_line(i: u64, t: Taken) -> Line
    requires { NoNan t.answer }
    ensures { result ≡ answer_line i t }
{
    let n0 = t.state.n0 as u64;
    let n1 = t.state.n1 as u64;
    match t.answer {
        Ok(sums) => match sums {
            None => text::step_line(i, 0, n0, n1, None),
            Some(sums) => {
                let s0 = amplitudes::to_bits(sums.clear);
                let s1 = amplitudes::to_bits(sums.set);
                text::step_line(i, 0, n0, n1, Some((s0, s1)))
            }
        },
        Err(r) => text::step_line(i, r.number(), n0, n1, None),
    }
}

fn tag_line(tag: Option<usize>) -> Line
    ensures { result ≡ tag_lines tag }
{
    text::tag_line(tag.map(|q| q as u64))
}

// The line of a record of width 1: key, re, im.
fn record_line(words: &[u64; 3]) -> Line
    ensures { result ≡ record_text words.now 0 }
{
    let [key, re, im] = *words;
    text::record_line(key, re, im)
}

// ---- a trial

// A trial under way: its state, and the two stores of 1,024 records.
#[derive(Drop)]
struct Trial {
    state: State,
    left: [u64; 3072],
    right: [u64; 3072],
}

impl Trial {
    // The fresh state, in stores that hold zeros: there is room for a record, so that it is never
    // refused.
    fn begin() -> Trial
        ensures { progress_in result ≡ fresh_trial }
    {
        let mut left = [0; 3072];
        let state = state::fresh(1, &mut left).unwrap();
        Trial {
            state,
            left,
            right: [0; 3072],
        }
    }

    // Takes the step that the bytes hold, and gives its line, that of step i.
    fn take(&mut self, i: u64, bytes: &[u8; 80]) -> Line
        ensures { record { kept = progress_in self.new; line = result }
            ≡ turn i (progress_in self.old) (step_in bytes.now) }
    {
        let t = run::take_step(self.state, decode(bytes), &mut self.left, &mut self.right);
        self.state = t.state;
        step_line(i, t)
    }

    // Stray bytes at the end are one step, refused with 10: its line, that of step i.
    fn stray(&self, i: u64) -> Line
        ensures { result ≡ answer_line i (refused_step self.now.state) }
    {
        let t = Taken {
            state: self.state,
            answer: Err(Refusal::Step),
        };
        step_line(i, t)
    }
}

// ---- the program

// Prints a line. What cannot be written is passed over. `replay` has a like function: one for both,
// in `text`, would bring `io` into the C library `probe`.
fn print(line: Line) {
    io::write_all(1, line.as_bytes());
}

// Takes every step of the input, and prints the line of each. A proved loop has to end, and nothing
// says that the input does, so it ends at a number of steps too, which no run reaches.
fn take_steps(trial: &mut Trial)
    ensures { Reached (progress_in trial.old) (progress_in trial.new) }
{
    let mut bytes: [u8; 80] = [0; 80];
    for i in 1..u64::MAX {
        let n = io::read_full(0, &mut bytes);
        if n < 80 {
            if 0 < n {
                print(trial.stray(i));
            }
            return;
        }
        print(trial.take(i, &bytes));
    }
}

// Prints the tag, and every record of the state.
fn print_state(trial: &Trial) {
    print(tag_line(trial.state.tag));
    let words = state::export(trial.state, &trial.left, &trial.right);
    let (records, _) = words.as_chunks::<3>();
    for record in records {
        print(record_line(record));
    }
}

fn main() {
    let mut trial = Trial::begin();
    take_steps(&mut trial);
    print_state(&trial);
}
