// The tick and the run: document 01, "The replay bench".
ghost use Rattle.std.specs.Prelude.{◌≡◌};
ghost use Rattle.bench.specs.Rule.{tick_of};
ghost use Rattle.bench.specs.Loaded.{run_whole};

use crate::state::{Bench, LAST_TICK, Outcome};

impl Bench {
    // "Each tick takes a bench state and hands back the next."
    #[tactic(auto, unfolding(crate::specs::Rule::tick_of, model::specs::Replay::last_tick))]
    pub fn tick(mut self) -> Bench
        ensures { result ≡ tick_of self }
    {
        let Outcome::Running = self.outcome else {
            return self;
        };
        if LAST_TICK < self.tick {
            return self;
        }
        if let Some(late) = self.first_late() {
            return Bench {
                outcome: Outcome::Missed(late),
                ..self
            };
        }
        if self.first_left().is_none() {
            return Bench {
                outcome: Outcome::AllMet,
                ..self
            };
        }
        if let Some(next) = self.next() {
            self.left[next] -= 1;
        }
        self.tick += 1;
        self
    }

    // "All runs end by tick 131,070": a tick for each of 0 to LAST_TICK is enough.
    pub fn run(mut self) -> Bench
        ensures { result ≡ run_whole self }
    {
        for _ in 0..=LAST_TICK {
            let Outcome::Running = self.outcome else {
                return self;
            };
            self = self.tick();
        }
        self
    }
}
