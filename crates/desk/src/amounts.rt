// What a table is, and the questions for one number of it: demand, work and margin.
ghost use Rattle.std.specs.Prelude.{◌≡◌};
ghost use Rattle.model.specs.Demand.{margin};
ghost use Rattle.sums.specs.Sized.{peak_by};
ghost use Rattle.desk.specs.Questions.{read_asked, one_task, at_time, demand_asked, work_asked, margin_asked};
ghost use Rattle.desk.specs.Flat.{flat_shape, flat_amount, flat_margin};
ghost use Rattle.desk.specs.Said.{result_of};

use crate::answers::{Amount, Margin, Shape};
use crate::limits::HORIZON;
use sums::asked::Sum;
use table::fault::{Fault, Refusal};
use table::reader::read_table;
use table::task_table::TaskTable;

// What the bytes are as a table. Refuses by the rules of a table, as every question does first.
pub fn limpidorsa_read(table: &[u8]) -> Shape
    ensures { result ≡ flat_shape (read_asked table.now) }
{
    Shape::from(read_table(table))
}

// The demand of one task at t, or its work in t.
fn ask_sum(table: &[u8], task: u64, t: u64, which: Sum) -> Result<u64, Refusal>
    ensures { result ≡ result_of (one_task (peak_by which) table.now task t) }
{
    let shape = read_table(table)?;
    if shape.tasks as u64 <= task {
        return Err(Fault::NoSuchFrame.alone());
    }
    if HORIZON < t {
        return Err(Fault::TooFar.alone());
    }
    let table = TaskTable::of(table, shape);
    Ok(sums::total::peak_of(&table, task as usize, t, which).sum)
}

// The demand of a task at t. Refuses with 9, then 7.
pub fn limpidorsa_demand(table: &[u8], task: u64, t: u64) -> Amount
    ensures { result ≡ flat_amount (demand_asked table.now task t) }
{
    Amount::from(ask_sum(table, task, t, Sum::Demand))
}

// The work of a task in a window w. Refuses with 9, then 7.
pub fn limpidorsa_work(table: &[u8], task: u64, w: u64) -> Amount
    ensures { result ≡ flat_amount (work_asked table.now task w) }
{
    Amount::from(ask_sum(table, task, w, Sum::Work))
}

fn ask_margin(table: &[u8], t: u64) -> Result<i64, Refusal>
    ensures { result ≡ result_of (at_time margin table.now t) }
{
    let shape = read_table(table)?;
    if HORIZON < t {
        return Err(Fault::TooFar.alone());
    }
    let table = TaskTable::of(table, shape);
    Ok(sums::margin::spare(t, sums::total::total(&table, t, Sum::Demand)))
}

// The margin of the whole table at t. Refuses with 7.
pub fn limpidorsa_margin(table: &[u8], t: u64) -> Margin
    ensures { result ≡ flat_margin (margin_asked table.now t) }
{
    Margin::from(ask_margin(table, t))
}
