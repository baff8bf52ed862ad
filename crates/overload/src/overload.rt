// What an overload list is of.
ghost use Rattle.table.specs.Ready.{table_in};
ghost use Rattle.overload.specs.Counts.{Asked};

use table::task_table::TaskTable;

// A table that was read, a t, and the sixteen start frames there.
#[derive(Clone, Copy)]
pub struct Overload<'a> {
    pub table: &'a TaskTable<'a>,
    pub t: u64,
    pub starts: [u8; 16],
    pub ghost asked: { Asked (table_in table.now) t starts },
}
