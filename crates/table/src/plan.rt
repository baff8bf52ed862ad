// Where each task of a good table stands.
ghost use Rattle.std.specs.Prelude.{◌≡◌, ◌*◌, ◌≤◌, length};
ghost use Rattle.table.specs.Bytes.{size, most_records};
ghost use Rattle.table.specs.TableOf.{records_before, plan_of};

use crate::record::record_at;
use std::array::from_fn;

// The first record of each task, and after the last task's the end of the table.
#[derive(Clone, Copy)]
pub struct Plan {
    pub tasks: usize,
    pub first: [usize; 17],
}

// How many of the first n records are of a task below k.
fn count_before(s: &[u8], n: usize, k: usize) -> usize
    requires { (n * size ≤ length s.now) × (n ≤ most_records) }
    ensures { result ≡ records_before n s.now k }
{
    let mut before = 0;
    for i in 0..n {
        if usize::from(record_at(s, i).task) < k {
            before += 1;
        }
    }
    before
}

// The plan of a table of n records and the given number of tasks.
pub fn make_plan(s: &[u8], n: usize, tasks: usize) -> Plan
    requires { (n * size ≤ length s.now) × (n ≤ most_records) }
    ensures { result ≡ plan_of s.now n tasks }
{
    Plan {
        tasks,
        first: from_fn(|k| count_before(s, n, k)),
    }
}
