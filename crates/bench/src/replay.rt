// What a bench answers when it is run to its end.
ghost use Rattle.std.specs.Prelude.{◌≡◌};
ghost use Rattle.bench.specs.Loaded.{end_of};
ghost use Rattle.bench.specs.ReplayWritten.{replayed_of};

use crate::state::{Bench, Outcome};

// What a replay answers: the miss with its tick and record index, or *all met* with the tick after the last unit.
#[derive(Clone, Copy)]
pub enum Replayed {
    Missed { tick: u32, index: usize },
    AllMet { tick: u32 },
}

// The answer of a bench that is run to its end. No replay ends with one that still runs.
#[tactic(auto, unfolding(crate::specs::Loaded::end_of))]
pub fn finish(start: Bench) -> Replayed
    ensures { result ≡ replayed_of (end_of start) }
{
    let end = start.run();
    match end.outcome {
        Outcome::Missed(index) => Replayed::Missed {
            tick: end.tick,
            index,
        },
        Outcome::AllMet | Outcome::Running => Replayed::AllMet { tick: end.tick },
    }
}
