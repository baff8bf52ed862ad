// The request that a tick serves: of those that are ready, the first in the order.
ghost use Rattle.std.specs.Prelude.{◌≡◌, ◌<◌, IfSome};
ghost use Rattle.laws.specs.Search.{option_of};
ghost use Rattle.model.specs.Machine.{ready};
ghost use Rattle.requests.specs.Entry.{most_requests};
ghost use Rattle.bench.specs.Rule.{jobs_in, next_in};
ghost use Rattle.bench.specs.Scan.{HasUnit};

use crate::state::Bench;
use requests::list_reader::MOST_REQUESTS;

impl Bench {
    // "arrived, unfinished"
    fn is_ready(&self, k: usize) -> bool
        requires { k < most_requests }
        ensures { result ≡ ready (jobs_in self.now) self.now.tick (jobs_in self.now).amount k }
    {
        self.release[k] <= self.tick && self.left[k] > 0
    }

    // "the arrived, unfinished request with the earliest deadline", over all the slots.
    pub(crate) fn next(&self) -> Option<usize>
        ensures first { result ≡ option_of (next_in self.now) }
        ensures has_unit { IfSome result (HasUnit self.now) }
    {
        (0..MOST_REQUESTS)
            .filter(|&k| self.is_ready(k))
            .min_by_key(|&k| (self.due[k], self.task[k], self.arrive[k]))
    }
}
