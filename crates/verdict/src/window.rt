// The closing window, if there is one up to a limit.
ghost use Rattle.std.specs.Prelude.{◌≡◌, ◌≤◌};
ghost use Rattle.laws.specs.Search.{option_of};
ghost use Rattle.model.specs.Verdict.{closing_window};
ghost use Rattle.table.specs.Ready.{table_in};
ghost use Rattle.sums.specs.Sized.{ceiling};

use sums::asked::Sum;
use sums::total::total;
use table::task_table::TaskTable;

pub fn close_by(table: &TaskTable, limit: u64) -> Option<u64>
    requires { limit ≤ ceiling }
    ensures { result ≡ option_of (closing_window limit (table_in table.now)) }
{
    (1..=limit).find(|&w| total(table, w, Sum::Work) <= w)
}
