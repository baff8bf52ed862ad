// The bench's state laid flat, and what is handed out where a list is loaded.
ghost use Rattle.std.specs.Prelude.{◌≡◌};
ghost use Rattle.desk.specs.FlatBench.{outcome_number, missed_record, flat_bench};
ghost use Rattle.desk.specs.Laid.{laid_loaded};

use crate::answers::{ALL_MET, Loaded, MISSED, NONE, RUNNING, State};
use bench::state::{Bench, Outcome};
use table::fault::Refusal;

// C has an outcome as a number, and beside it the record that missed.
fn outcome_number(outcome: Outcome) -> u8
    ensures { result ≡ outcome_number outcome }
{
    match outcome {
        Outcome::Running => RUNNING,
        Outcome::Missed(_) => MISSED,
        Outcome::AllMet => ALL_MET,
    }
}

fn missed_record(outcome: Outcome) -> usize
    ensures { result ≡ missed_record outcome }
{
    match outcome {
        Outcome::Missed(index) => index,
        Outcome::Running | Outcome::AllMet => 0,
    }
}

impl From<Bench> for State {
    ghost from_gives = { λ b state. state ≡ flat_bench b };

    fn from(b: Bench) -> State {
        let Bench {
            tick,
            left,
            due,
            arrive,
            release,
            task,
            outcome,
        } = b;
        State {
            tick,
            outcome: outcome_number(outcome),
            index: missed_record(outcome),
            left,
            due,
            arrive,
            release,
            task,
        }
    }
}

// How many records a list has, and the bench that is loaded with it; beside a refusal a bench with nothing to do.
impl From<Result<(usize, Bench), Refusal>> for Loaded {
    ghost from_gives = { λ said flat. flat ≡ laid_loaded said };

    fn from(said: Result<(usize, Bench), Refusal>) -> Loaded {
        match said {
            Ok((records, bench)) => Loaded {
                refusal: NONE,
                records,
                state: State::from(bench),
            },
            Err(refusal) => Loaded {
                refusal,
                records: 0,
                state: State::from(bench::load::empty()),
            },
        }
    }
}
