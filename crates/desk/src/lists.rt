// The questions about a request list: whether it is legal, the bench that is loaded with it, and its replay.
ghost use Rattle.std.specs.Prelude.{◌≡◌, IfOk};
ghost use Rattle.table.specs.TableReader.{reading_of};
ghost use Rattle.table.specs.Ready.{shape_of};
ghost use Rattle.bench.specs.ReplayWritten.{replayed_of};
ghost use Rattle.desk.specs.ListQuestions.{on_list, counts, loads, replays, list_asked, load_asked, replay_asked};
ghost use Rattle.desk.specs.FlatList.{flat_listed, flat_ending};
ghost use Rattle.desk.specs.FlatBench.{flat_loaded};
ghost use Rattle.desk.specs.Said.{result_of, result_by, loading_pair};

use crate::answers::{Ending, Listed, Loaded};
use bench::load::load;
use bench::replay::Replayed;
use bench::state::Bench;
use requests::list_reader::check_list;
use table::fault::Refusal;
use table::task_table::TaskTable;

fn ask_list(table: &[u8], list: &[u8]) -> Result<usize, Refusal>
    ensures { result ≡ result_of (on_list table.now list.now counts) }
{
    let table = TaskTable::read(table)?;
    check_list(&table, list)
}

// What the bytes are as a request list of the table. Refuses with 10 or 11.
pub fn limpidorsa_list<'a, 'b>(table: &'a [u8], list: &'b [u8]) -> Listed
    ensures { result ≡ flat_listed (list_asked table.now list.now) }
{
    Listed::from(ask_list(table, list))
}

// How many records the list has, and the bench that is loaded with it.
fn ask_load(table: &[u8], list: &[u8]) -> Result<(usize, Bench), Refusal>
    ensures { result ≡ result_by loading_pair (on_list table.now list.now loads) }
{
    let table = TaskTable::read(table)?;
    let records = check_list(&table, list)?;
    Ok((records, load(&table, list, records)))
}

// The table, read in a call of its own: where the reader's ways out lie within `limpidorsa_load`, its bench is copied
// once more.
#[inline(never)]
fn read_apart(table: &[u8]) -> Result<TaskTable<'_>, Refusal>
    ensures shape { shape_of result ≡ reading_of table.now }
    ensures bytes { IfOk result (λ read. read.bytes.now ≡ table.now) }
{
    TaskTable::read(table)
}

// The bench loaded with a request list, before tick 0. Refuses with 10 or 11; the bench then has nothing to do.
pub fn limpidorsa_load<'a, 'b>(table: &'a [u8], list: &'b [u8]) -> Loaded
    ensures { result ≡ flat_loaded (load_asked table.now list.now) }
{
    // not from what `ask_load` says: a bench within a Result is copied twice more
    let table = match read_apart(table) {
        Ok(table) => table,
        Err(refusal) => return Loaded::from(Err(refusal)),
    };
    let records = match check_list(&table, list) {
        Ok(records) => records,
        Err(refusal) => return Loaded::from(Err(refusal)),
    };
    Loaded::from(Ok((records, load(&table, list, records))))
}

fn ask_replay(table: &[u8], list: &[u8]) -> Result<Replayed, Refusal>
    ensures { result ≡ result_by replayed_of (on_list table.now list.now replays) }
{
    let (_, bench) = ask_load(table, list)?;
    Ok(bench::replay::finish(bench))
}

// The replay of a request list by the earliest-deadline bench. Refuses with 10 or 11.
pub fn limpidorsa_replay<'a, 'b>(table: &'a [u8], list: &'b [u8]) -> Ending
    ensures { result ≡ flat_ending (replay_asked table.now list.now) }
{
    Ending::from(ask_replay(table, list))
}
