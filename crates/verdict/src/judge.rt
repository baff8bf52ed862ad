// The verdict: t by t, an overload first, then the closing window, at which the search stops.
ghost use Rattle.std.specs.Prelude.{◌≡◌, ◌≤◌};
ghost use Rattle.model.specs.Verdict.{verdict};
ghost use Rattle.table.specs.Ready.{table_in};
ghost use Rattle.sums.specs.Sized.{ceiling};
ghost use Rattle.verdict.specs.VerdictWritten.{verdict_of};

use crate::starts::starts_at;
use sums::asked::Sum;
use sums::margin::spare;
use sums::total::total;
use table::task_table::TaskTable;

#[derive(Clone, Copy)]
pub enum Verdict {
    // with sixteen start frames, one per task
    Overloaded {
        t: u64,
        margin: i64,
        starts: [u8; 16],
    },
    Fits {
        window: u64,
        margin: i64,
        t: u64,
    },
    Undecided,
}

pub fn judge_to(table: &TaskTable, limit: u64) -> Verdict
    requires { limit ≤ ceiling }
    ensures { result ≡ verdict_of (verdict limit (table_in table.now)) }
{
    // the least margin so far, and the first t that has it: at t 1 none is above 1
    let mut low: u64 = 1;
    let mut at: u64 = 1;
    for t in 1..=limit {
        let asked = total(table, t, Sum::Demand);
        if t < asked {
            return Verdict::Overloaded {
                t,
                margin: spare(t, asked),
                starts: starts_at(table, t),
            };
        }
        let margin = t - asked;
        // an equal margin keeps the earlier t
        if margin < low {
            low = margin;
            at = t;
        }
        if total(table, t, Sum::Work) <= t {
            return Verdict::Fits {
                window: t,
                margin: low as i64,
                t: at,
            };
        }
    }
    Verdict::Undecided
}
