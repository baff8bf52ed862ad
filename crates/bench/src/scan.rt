// The first slot that a test finds: document 01, "The replay bench".
ghost use Rattle.std.specs.Prelude.{◌≡◌};
ghost use Rattle.laws.specs.Search.{option_of};
ghost use Rattle.bench.specs.Rule.{first_late, first_left};

use crate::state::Bench;
use requests::list_reader::MOST_REQUESTS;

impl Bench {
    // "any request with work left and deadline at most T is a miss": the one with the lowest index.
    pub(crate) fn first_late(&self) -> Option<usize>
        ensures { result ≡ option_of (first_late self.now) }
    {
        (0..MOST_REQUESTS).find(|&k| self.left[k] > 0 && self.due[k] <= self.tick)
    }

    // The first request with work left.
    pub(crate) fn first_left(&self) -> Option<usize>
        ensures { result ≡ option_of (first_left self.now) }
    {
        (0..MOST_REQUESTS).find(|&k| self.left[k] > 0)
    }
}
