// The reader of request lists: refusals 10 and 11.
ghost use Rattle.std.specs.Prelude.{◌≡◌};
ghost use Rattle.table.specs.Ready.{table_in};
ghost use Rattle.requests.specs.ListReader.{bad_list_length, check_of};

use crate::entry::{ENTRY_SIZE, entry_at};
use crate::list_rules::{Carry, LAST_ARRIVAL};
use table::fault::{Fault, Refusal};
use table::task_table::TaskTable;

// The most requests of a list.
pub const MOST_REQUESTS: usize = 128;

fn is_bad_list_length(n: usize) -> bool
    ensures { result ≡ bad_list_length n }
{
    MOST_REQUESTS * ENTRY_SIZE < n || n % ENTRY_SIZE != 0
}

// The whole list: how many records it has, or the first refusal.
pub fn check_list(table: &TaskTable, list: &[u8]) -> Result<usize, Refusal>
    ensures { result ≡ check_of (table_in table.now) list.now }
{
    let len = list.len();
    if is_bad_list_length(len) {
        return Err(Fault::BadList.alone());
    }
    let n = len / ENTRY_SIZE;
    let mut known = Carry::default();
    for i in 0..n {
        let x = entry_at(list, i);
        if let Some(fault) = known.fault(table, LAST_ARRIVAL, x) {
            return Err(fault.at(i));
        }
        known.after(table, x);
    }
    Ok(n)
}
