// The closing window and the earliest-deadline verdict.
ghost use Rattle.std.specs.Prelude.{◌≡◌};
ghost use Rattle.laws.specs.Search.{option_of};
ghost use Rattle.verdict.specs.VerdictWritten.{verdict_of};
ghost use Rattle.model.specs.Verdict.{horizon, closing_window, verdict};
ghost use Rattle.desk.specs.Orders.{table_only};
ghost use Rattle.desk.specs.Questions.{on_order, window_asked, verdict_asked};
ghost use Rattle.desk.specs.Flat.{flat_window};
ghost use Rattle.desk.specs.FlatVerdict.{flat_verdict};
ghost use Rattle.desk.specs.Said.{result_by};

use crate::answers::{Verdict, Window};
use crate::limits::HORIZON;
use table::fault::Refusal;
use table::task_table::TaskTable;

fn ask_window(table: &[u8]) -> Result<Option<u64>, Refusal>
    ensures { result ≡ result_by option_of (on_order table.now table_only (closing_window horizon)) }
{
    let table = TaskTable::read(table)?;
    Ok(verdict::window::close_by(&table, HORIZON))
}

// The closing window of the table, also of one that is overloaded.
pub fn limpidorsa_window(table: &[u8]) -> Window
    ensures { result ≡ flat_window (window_asked table.now) }
{
    Window::from(ask_window(table))
}

fn ask_verdict(table: &[u8]) -> Result<verdict::judge::Verdict, Refusal>
    ensures { result ≡ result_by verdict_of (on_order table.now table_only (verdict horizon)) }
{
    let table = TaskTable::read(table)?;
    Ok(verdict::judge::judge_to(&table, HORIZON))
}

// The earliest-deadline verdict on the table.
pub fn limpidorsa_verdict(table: &[u8]) -> Verdict
    ensures { result ≡ flat_verdict (verdict_asked table.now) }
{
    Verdict::from(ask_verdict(table))
}
