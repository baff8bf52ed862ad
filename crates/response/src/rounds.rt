// The response of a frame: value by value, until one passes D or is repeated.
ghost use Rattle.std.specs.Prelude.{◌<◌, ◌≤◌};
ghost use Rattle.model.specs.Request.{HasFrame};
ghost use Rattle.model.specs.Response.{higher_share};
ghost use Rattle.table.specs.Ready.{table_in};
ghost use Rattle.sums.specs.Sized.{ceiling};
ghost use Rattle.response.specs.ResponseWritten.{Recurs, ResponseIs};

use crate::share::add_shares;
use table::task_table::TaskTable;

#[derive(Clone, Copy)]
pub enum Response {
    OnTime { value: u64, rounds: u64 },
    Late { value: u64, round: u64 },
}

// The recurrence below the tasks above task k, from `start` on, until a value passes `end` or is repeated, with the
// number of that value.
fn recur(table: &TaskTable, k: usize, start: u64, end: u64) -> Response
    requires { (k < (table_in table.now).tasks) × (start ≤ ceiling) × (end ≤ ceiling) }
    ensures { Recurs (higher_share (table_in table.now) k) start end result }
{
    let mut value = start;
    let mut round: u64 = 0;
    // by the value: no number of rounds is its end
    while value <= end {
        let next = start + add_shares(table, k, value);
        if next == value {
            return Response::OnTime {
                value,
                rounds: round,
            };
        }
        value = next;
        round += 1;
    }
    Response::Late { value, round }
}

// The response of frame i of task k: from its E, and up to its D.
pub fn respond(table: &TaskTable, k: usize, i: usize) -> Response
    requires { HasFrame (table_in table.now) k i }
    ensures { ResponseIs (table_in table.now) k i result }
{
    let x = table.frame_at(k, i);
    recur(table, k, u64::from(x.e), u64::from(x.d))
}
