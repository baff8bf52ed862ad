// A tick of the bench's state.
ghost use Rattle.std.specs.Prelude.{◌≡◌};
ghost use Rattle.desk.specs.FlatBench.{running, flat_tick};

use crate::answers::{RUNNING, State};
use bench::state::{Bench, LAST_TICK, Outcome};

impl State {
    // The bench of a state that has not stopped.
    fn running(self) -> Bench
        ensures { result ≡ running self }
    {
        let State {
            tick,
            left,
            due,
            arrive,
            release,
            task,
            ..
        } = self;
        Bench {
            tick,
            left,
            due,
            arrive,
            release,
            task,
            outcome: Outcome::Running,
        }
    }
}

// One tick of the bench, of any state. A state whose outcome is not `RUNNING` comes back unchanged, and so does one
// past `LAST_TICK`. A bench that was loaded stops within `LAST_TICK` + 1 calls, and holds its answer then.
pub fn limpidorsa_tick(state: State) -> State
    ensures { result ≡ flat_tick state }
{
    if state.outcome != RUNNING {
        return state;
    }
    if LAST_TICK < state.tick {
        return state;
    }
    State::from(state.running().tick())
}
