// The overload list: how many bytes it has, and the list written into a lent buffer.
ghost use Rattle.std.specs.Prelude.{◌≡◌};
ghost use Rattle.place.specs.Place.{Wrote};
ghost use Rattle.desk.specs.Orders.{size_order};
ghost use Rattle.desk.specs.OverloadRules.{list_in};
ghost use Rattle.desk.specs.Questions.{on_order, sized, size_asked, placed, overload_asked};
ghost use Rattle.desk.specs.FlatList.{flat_written, FlatWrote};
ghost use Rattle.desk.specs.Said.{result_of, list_found};

use crate::answers::Written;
use crate::limits::HORIZON;
use overload::overload::Overload;
use table::fault::{Fault, Refusal};
use table::task_table::TaskTable;
use verdict::judge::{Verdict, judge_to};

// The overload that the verdict tells, or 13.
fn find_overload<'a>(table: &'a TaskTable<'a>) -> Result<Overload<'a>, Refusal>
    ensures { list_found result ≡ result_of (on_order table.now.bytes.now size_order list_in) }
{
    let Verdict::Overloaded { t, starts, .. } = judge_to(table, HORIZON) else {
        return Err(Fault::NotOverloaded.alone());
    };
    Ok(Overload { table, t, starts })
}

fn ask_size(table: &[u8]) -> Result<usize, Refusal>
    ensures { result ≡ result_of (sized table.now) }
{
    let table = TaskTable::read(table)?;
    let overload = find_overload(&table)?;
    Ok(overload.list_size())
}

// How many bytes the overload list of the table has: as many as limpidorsa_overload needs from its place on. Refuses
// with 13.
pub fn limpidorsa_overload_size(table: &[u8]) -> Written
    ensures { result ≡ flat_written (size_asked table.now) }
{
    Written::from(ask_size(table))
}

fn ask_overload(table: &[u8], buffer: &mut [u8], place: usize) -> Result<usize, Refusal>
    ensures { Wrote buffer.old place (placed table.now buffer.old place) result buffer.new }
{
    let table = TaskTable::read(table)?;
    let overload = find_overload(&table)?;
    overload.write_list(buffer, place)
}

// Writes the overload list of the table into the buffer, from the place on; bytes before it and after the list stay.
// Refuses with 13, then 12. A call that is refused, with whatever number, changes no byte. limpidorsa_overload_size
// says how many bytes the list has; it may have more records than a list that is replayed.
pub fn limpidorsa_overload<'a, 'b>(table: &'a [u8], buffer: &'b mut [u8], place: usize) -> Written
    ensures { FlatWrote buffer.old place (overload_asked table.now buffer.old place) result
        buffer.new }
{
    Written::from(ask_overload(table, buffer, place))
}
