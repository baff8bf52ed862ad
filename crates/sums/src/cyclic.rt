// The cyclic sum of one task from one start frame.
ghost use Rattle.std.specs.Prelude.{◌<◌, ◌≤◌};
ghost use Rattle.table.specs.Ready.{task_in};
ghost use Rattle.sums.specs.Sized.{Summed, far};

use crate::asked::Sum;
use table::task_run::TaskRun;

// The sum of E of the frames that fit in t, from frame `start` on.
pub fn count_from(run: &TaskRun, start: usize, t: u64, which: Sum) -> u64
    requires inside { start < run.now.frames }
    requires within { t ≤ far }
    ensures { Summed (task_in run.now) which t start result }
{
    let mut left = t;
    let mut i = start;
    let mut sum: u64 = 0;
    // by the time that is left, and by no index
    while 0 < left {
        let x = run.frame(i);
        // what a frame must have room for besides its offset
        let room = match which {
            Sum::Demand => u64::from(x.d),
            Sum::Work => 1,
        };
        if room <= left {
            sum += u64::from(x.e);
        }
        left = left.saturating_sub(u64::from(x.p));
        i = run.next(i);
    }
    sum
}
