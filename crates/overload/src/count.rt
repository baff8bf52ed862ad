// How many requests of each task the overload list has.
ghost use Rattle.std.specs.Prelude.{◌≡◌, ◌≤◌, ◌<◌};
ghost use Rattle.table.specs.Ready.{table_in, task_in};
ghost use Rattle.sums.specs.Sized.{ceiling};
ghost use Rattle.overload.specs.Counts.{Counted, first_lane, first_lanes};

use crate::lanes::{Lane, Lanes};
use crate::overload::Overload;
use std::array::from_fn;
use table::task_run::TaskRun;

// The requests of a task, from frame `start` on, up to and including the last that is due by t.
fn count_by(task: &TaskRun, start: usize, t: u64) -> u32
    requires inside { start < task.now.frames }
    requires within { t ≤ ceiling }
    ensures { Counted (task_in task.now) start t result }
{
    let mut left = t;
    let mut i = start;
    let mut n: u32 = 0;
    let mut many: u32 = 0;
    // by the time that is left, and by no index: n counts the requests
    while 0 < left {
        let x = task.frame(i);
        n += 1;
        if u64::from(x.d) <= left {
            many = n;
        }
        left = left.saturating_sub(u64::from(x.p));
        i = task.next(i);
    }
    many
}

impl Overload<'_> {
    // Where task k stands before a request is taken.
    fn first_lane(&self, k: usize) -> Lane
        requires { k < 16 }
        ensures { result ≡ first_lane (table_in self.now.table.now) self.now.t k }
    {
        let frame = self.starts[k];
        let left = if k < self.table.tasks() {
            count_by(&self.table.task(k), usize::from(frame), self.t)
        } else {
            0
        };
        Lane {
            left,
            frame,
            arrival: 0,
        }
    }

    // Where all stand.
    pub(crate) fn first_lanes(&self) -> Lanes
        ensures { result ≡ first_lanes (table_in self.now.table.now) self.now.t }
    {
        Lanes {
            each: from_fn(|k| self.first_lane(k)),
        }
    }
}
