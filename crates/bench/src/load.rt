// Loading the bench with a legal request list.
ghost use Rattle.std.specs.Prelude.{◌≡◌};
ghost use Rattle.model.specs.Jobs.{jobs_of};
ghost use Rattle.table.specs.Ready.{table_in};
ghost use Rattle.requests.specs.Accepted.{Listed};
ghost use Rattle.requests.specs.Entry.{list_of};
ghost use Rattle.bench.specs.Loaded.{loaded, no_jobs};

use crate::state::{Bench, Outcome};
use requests::entry::entry_at;
use requests::list_reader::MOST_REQUESTS;
use table::task_table::TaskTable;

// The bench with nothing to do.
pub fn empty() -> Bench
    ensures { result ≡ loaded no_jobs }
{
    Bench {
        tick: 0,
        left: [0; MOST_REQUESTS],
        due: [0; MOST_REQUESTS],
        arrive: [0; MOST_REQUESTS],
        release: [0; MOST_REQUESTS],
        task: [0; MOST_REQUESTS],
        outcome: Outcome::Running,
    }
}

// The n requests of a legal list, each with its frame's E and D.
pub fn load(table: &TaskTable, list: &[u8], n: usize) -> Bench
    requires { Listed (table_in table.now) list.now n }
    ensures { result ≡ loaded (jobs_of (table_in table.now) (list_of list.now)) }
{
    let mut bench = empty();
    for i in 0..n {
        let x = entry_at(list, i);
        let frame = table.frame_at(usize::from(x.task), usize::from(x.frame));
        bench.left[i] = u32::from(frame.e);
        bench.due[i] = x.arrival + u32::from(frame.d);
        bench.arrive[i] = x.arrival;
        bench.release[i] = x.arrival;
        bench.task[i] = x.task;
    }
    bench
}
