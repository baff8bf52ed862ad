// One task's peak and its sum from one start, by its number; and the sum over all tasks.
ghost use Rattle.std.specs.Prelude.{◌<◌, ◌≤◌};
ghost use Rattle.model.specs.Request.{HasFrame};
ghost use Rattle.table.specs.Ready.{table_in};
ghost use Rattle.sums.specs.Sized.{Summed, Peaks, Total, ceiling, far};

use crate::asked::Sum;
use crate::cyclic::count_from;
use crate::peak::{Peak, most_of};
use table::task_table::TaskTable;

// The peak of task k.
pub fn peak_of(table: &TaskTable, k: usize, t: u64, which: Sum) -> Peak
    requires there { k < (table_in table.now).tasks }
    requires within { t ≤ ceiling }
    ensures { Peaks ((table_in table.now).task k) which t result }
{
    most_of(&table.task(k), t, which)
}

// The cyclic sum of task k from frame `start`.
pub fn count_of(table: &TaskTable, k: usize, start: usize, t: u64, which: Sum) -> u64
    requires there { HasFrame (table_in table.now) k start }
    requires within { t ≤ far }
    ensures { Summed ((table_in table.now).task k) which t start result }
{
    count_from(&table.task(k), start, t, which)
}

// The demands of all tasks at t, or their work in t.
pub fn total(table: &TaskTable, t: u64, which: Sum) -> u64
    requires { t ≤ ceiling }
    ensures { Total (table_in table.now) which t result }
{
    // not by `sum()`, which asks that the total fits before a summand is known
    let mut sum: u64 = 0;
    for k in 0..table.tasks() {
        sum += peak_of(table, k, t, which).sum;
    }
    sum
}
