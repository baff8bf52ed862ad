// The verdict, the response and the ending of a replay laid flat, one case for each.
ghost use Rattle.std.specs.Prelude.{◌≡◌};
ghost use Rattle.desk.specs.Laid.{laid_verdict, laid_response, laid_ending};

use crate::answers::{Ending, FITS, NONE, OVERLOADED, Response, UNDECIDED, Verdict};
use bench::replay::Replayed;
use table::fault::Refusal;

impl From<Result<verdict::judge::Verdict, Refusal>> for Verdict {
    ghost from_gives = { λ said flat. flat ≡ laid_verdict said };

    fn from(said: Result<verdict::judge::Verdict, Refusal>) -> Verdict {
        match said {
            Ok(verdict::judge::Verdict::Overloaded { t, margin, starts }) => Verdict {
                refusal: NONE,
                verdict: OVERLOADED,
                t,
                margin,
                window: 0,
                starts,
            },
            Ok(verdict::judge::Verdict::Fits { window, margin, t }) => Verdict {
                refusal: NONE,
                verdict: FITS,
                t,
                margin,
                window,
                starts: [0; 16],
            },
            Ok(verdict::judge::Verdict::Undecided) => Verdict {
                refusal: NONE,
                verdict: UNDECIDED,
                t: 0,
                margin: 0,
                window: 0,
                starts: [0; 16],
            },
            Err(refusal) => Verdict {
                refusal,
                verdict: 0,
                t: 0,
                margin: 0,
                window: 0,
                starts: [0; 16],
            },
        }
    }
}

impl From<Result<response::rounds::Response, Refusal>> for Response {
    ghost from_gives = { λ said flat. flat ≡ laid_response said };

    fn from(said: Result<response::rounds::Response, Refusal>) -> Response {
        match said {
            Ok(response::rounds::Response::OnTime { value, rounds }) => Response {
                refusal: NONE,
                late: false,
                value,
                round: rounds,
            },
            Ok(response::rounds::Response::Late { value, round }) => Response {
                refusal: NONE,
                late: true,
                value,
                round,
            },
            Err(refusal) => Response {
                refusal,
                late: false,
                value: 0,
                round: 0,
            },
        }
    }
}

impl From<Result<Replayed, Refusal>> for Ending {
    ghost from_gives = { λ said flat. flat ≡ laid_ending said };

    fn from(said: Result<Replayed, Refusal>) -> Ending {
        match said {
            Ok(Replayed::Missed { tick, index }) => Ending {
                refusal: NONE,
                missed: true,
                tick,
                index,
            },
            Ok(Replayed::AllMet { tick }) => Ending {
                refusal: NONE,
                missed: false,
                tick,
                index: 0,
            },
            Err(refusal) => Ending {
                refusal,
                missed: false,
                tick: 0,
                index: 0,
            },
        }
    }
}
