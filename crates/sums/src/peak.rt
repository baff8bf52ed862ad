// The greatest cyclic sum of one task over all its start frames, with the lowest frame that gives it.
ghost use Rattle.std.specs.Prelude.{◌≤◌};
ghost use Rattle.table.specs.Ready.{task_in};
ghost use Rattle.sums.specs.Sized.{Greatest, far};

use crate::asked::Sum;
use crate::cyclic::count_from;
use table::task_run::TaskRun;

#[derive(Clone, Copy)]
pub struct Peak {
    pub sum: u64,
    pub start: usize,
}

pub fn most_of(run: &TaskRun, t: u64, which: Sum) -> Peak
    requires { t ≤ far }
    ensures { Greatest (task_in run.now) which t result }
{
    let mut peak = Peak { sum: 0, start: 0 };
    for start in 0..run.frames {
        let sum = count_from(run, start, t, which);
        // an equal sum keeps the earlier start, for the lowest is asked
        if peak.sum < sum {
            peak = Peak { sum, start };
        }
    }
    peak
}
