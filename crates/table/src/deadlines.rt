// The first frame whose deadline comes after the next frame may arrive: refusal 8.
ghost use Rattle.std.specs.Prelude.{◌≡◌};
ghost use Rattle.laws.specs.Search.{option_of};
ghost use Rattle.table.specs.Bytes.{records};
ghost use Rattle.table.specs.Deadlines.{first_above};

use crate::record::record_at;
use crate::task_table::TaskTable;

impl TaskTable<'_> {
    // The first record with D above its P.
    pub fn first_above(&self) -> Option<usize>
        ensures { result ≡ option_of (first_above (records self.now.bytes.now) self.now.bytes.now) }
    {
        (0..self.shape.records).find(|&i| {
            let x = record_at(self.bytes, i);
            x.p < x.d
        })
    }
}
