// The record writer.
ghost use Rattle.std.specs.Prelude.{◌≡◌, ◌++◌, ◌*◌, length, drop};
ghost use Rattle.model.specs.Weave.{weave};
ghost use Rattle.table.specs.Ready.{table_in};
ghost use Rattle.requests.specs.Entry.{entry_size, bytes_of};
ghost use Rattle.overload.specs.Lanes.{Puts, runs_of};

use crate::lanes::Lanes;
use requests::entry::ENTRY_SIZE;
use table::task_table::TaskTable;

impl Lanes {
    // The requests that are left, of all tasks, woven, at the front of what is lent.
    pub fn put_all(mut self, table: &TaskTable, out: &mut [u8])
        requires { Puts (table_in table.now) (runs_of self) (length out.old) }
        ensures { out.new
            ≡ bytes_of (weave (table_in table.now) (runs_of self))
            ++ drop ((weave (table_in table.now) (runs_of self)).count * entry_size) out.old }
    {
        let tasks = table.tasks();
        let mut at: usize = 0;
        while let Some(k) = self.front(tasks) {
            let lane = &mut self.each[k];
            out[at..at + ENTRY_SIZE].copy_from_slice(&lane.next_bytes(k));
            lane.move_on(&table.task(k));
            at += ENTRY_SIZE;
        }
    }
}
