// What the higher tasks take of a frame's response: the one place that knows how a higher task is counted.
ghost use Rattle.std.specs.Prelude.{◌<◌, ◌≤◌};
ghost use Rattle.model.specs.Response.{above_in_table};
ghost use Rattle.table.specs.Ready.{table_in};
ghost use Rattle.sums.specs.Sized.{ceiling};
ghost use Rattle.response.specs.Shares.{Share, Shares};

use sums::asked::Sum;
use sums::total::{count_of, peak_of};
use table::task_table::TaskTable;

// What task k takes of w ticks, from its peak frame on: the start that brings the most work into one tick is the frame
// of the greatest E.
fn share_of(table: &TaskTable, k: usize, w: u64) -> u64
    requires { (k < (table_in table.now).tasks) × (w ≤ ceiling) }
    ensures { Share ((table_in table.now).task k) w result }
{
    let peak = peak_of(table, k, 1, Sum::Work);
    count_of(table, k, peak.start, w, Sum::Work)
}

// What the tasks above task k take of w ticks together: in table order, those before it.
pub fn add_shares(table: &TaskTable, k: usize, w: u64) -> u64
    requires { (k < (table_in table.now).tasks) × (w ≤ ceiling) }
    ensures { Shares (table_in table.now) (above_in_table k) w result }
{
    // not by `sum()`, which asks that the total fits before a summand is known
    let mut sum: u64 = 0;
    for j in 0..k {
        sum += share_of(table, j, w);
    }
    sum
}
