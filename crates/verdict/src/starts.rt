// Sixteen start frames, one per task: each the lowest that gives its task's demand at t.
ghost use Rattle.std.specs.Prelude.{◌≡◌, ◌≤◌};
ghost use Rattle.model.specs.Verdict.{start_in, starts};
ghost use Rattle.table.specs.Ready.{table_in};
ghost use Rattle.sums.specs.Sized.{ceiling};

use std::array::from_fn;
use sums::asked::Sum;
use sums::total::peak_of;
use table::task_table::TaskTable;

// Task k's, 0 past the last task.
fn start_in(table: &TaskTable, t: u64, k: usize) -> u8
    requires { t ≤ ceiling }
    ensures { result ≡ start_in (table_in table.now) t k }
{
    if k < table.tasks() {
        peak_of(table, k, t, Sum::Demand).start as u8
    } else {
        0
    }
}

pub fn starts_at(table: &TaskTable, t: u64) -> [u8; 16]
    requires { t ≤ ceiling }
    ensures { result ≡ starts (table_in table.now) t }
{
    from_fn(|k| start_in(table, t, k))
}
