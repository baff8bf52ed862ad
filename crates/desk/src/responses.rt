// The response of a frame under fixed priorities.
ghost use Rattle.std.specs.Prelude.{◌≡◌};
ghost use Rattle.response.specs.ResponseWritten.{response_of};
ghost use Rattle.desk.specs.Questions.{framed, response_asked};
ghost use Rattle.desk.specs.FlatVerdict.{flat_response};
ghost use Rattle.desk.specs.Said.{result_by};

use crate::answers::Response;
use table::fault::{Fault, Refusal};
use table::task_table::TaskTable;

fn ask_response(table: &[u8], task: u64, frame: u64) -> Result<response::rounds::Response, Refusal>
    ensures { result ≡ result_by response_of (framed table.now task frame) }
{
    let table = TaskTable::read(table)?;
    if table.is_missing(task, frame) {
        return Err(Fault::NoSuchFrame.alone());
    }
    if let Some(index) = table.first_above() {
        return Err(Fault::AboveP.at(index));
    }
    Ok(response::rounds::respond(&table, task as usize, frame as usize))
}

// The response of a frame, task 0 having the highest priority. Refuses with 9, then 8.
pub fn limpidorsa_response(table: &[u8], task: u64, frame: u64) -> Response
    ensures { result ≡ flat_response (response_asked table.now task frame) }
{
    Response::from(ask_response(table, task, frame))
}
