// The desk for a caller in C: each function of the public floor under its own name, with the floor's clauses, and
// nothing required. The floor says in words what each does; C's declarations are in crates/desk/limpidorsa.h.
#![tactic(auto)]

ghost use Rattle.std.specs.Prelude.{◌≡◌};
ghost use Rattle.desk.specs.Questions.{read_asked, demand_asked, work_asked, margin_asked};
ghost use Rattle.desk.specs.Questions.{window_asked, verdict_asked, response_asked, size_asked, overload_asked};
ghost use Rattle.desk.specs.ListQuestions.{list_asked, load_asked, replay_asked};
ghost use Rattle.desk.specs.Flat.{flat_shape, flat_amount, flat_margin, flat_window};
ghost use Rattle.desk.specs.FlatVerdict.{flat_verdict, flat_response};
ghost use Rattle.desk.specs.FlatList.{flat_written, FlatWrote, flat_listed, flat_ending};
ghost use Rattle.desk.specs.FlatBench.{flat_loaded, flat_tick};

use desk::answers::{
    Amount, Ending, Listed, Loaded, Margin, Response, Shape, State, Verdict, Window, Written,
};

// What a table is, and the questions for one number of it.

#[unsafe(no_mangle)]
pub extern "C" fn limpidorsa_read(table: &[u8]) -> Shape
    ensures { result ≡ flat_shape (read_asked table.now) }
{
    desk::amounts::limpidorsa_read(table)
}

#[unsafe(no_mangle)]
pub extern "C" fn limpidorsa_demand(table: &[u8], task: u64, t: u64) -> Amount
    ensures { result ≡ flat_amount (demand_asked table.now task t) }
{
    desk::amounts::limpidorsa_demand(table, task, t)
}

#[unsafe(no_mangle)]
pub extern "C" fn limpidorsa_work(table: &[u8], task: u64, w: u64) -> Amount
    ensures { result ≡ flat_amount (work_asked table.now task w) }
{
    desk::amounts::limpidorsa_work(table, task, w)
}

#[unsafe(no_mangle)]
pub extern "C" fn limpidorsa_margin(table: &[u8], t: u64) -> Margin
    ensures { result ≡ flat_margin (margin_asked table.now t) }
{
    desk::amounts::limpidorsa_margin(table, t)
}

// The closing window, the verdict, and the response of a frame.

#[unsafe(no_mangle)]
pub extern "C" fn limpidorsa_window(table: &[u8]) -> Window
    ensures { result ≡ flat_window (window_asked table.now) }
{
    desk::verdicts::limpidorsa_window(table)
}

#[unsafe(no_mangle)]
pub extern "C" fn limpidorsa_verdict(table: &[u8]) -> Verdict
    ensures { result ≡ flat_verdict (verdict_asked table.now) }
{
    desk::verdicts::limpidorsa_verdict(table)
}

#[unsafe(no_mangle)]
pub extern "C" fn limpidorsa_response(table: &[u8], task: u64, frame: u64) -> Response
    ensures { result ≡ flat_response (response_asked table.now task frame) }
{
    desk::responses::limpidorsa_response(table, task, frame)
}

// The overload list.

#[unsafe(no_mangle)]
pub extern "C" fn limpidorsa_overload_size(table: &[u8]) -> Written
    ensures { result ≡ flat_written (size_asked table.now) }
{
    desk::writer::limpidorsa_overload_size(table)
}

#[unsafe(no_mangle)]
pub extern "C" fn limpidorsa_overload<'a, 'b>(
    table: &'a [u8],
    buffer: &'b mut [u8],
    place: usize,
) -> Written
    ensures { FlatWrote buffer.old place (overload_asked table.now buffer.old place) result
        buffer.new }
{
    desk::writer::limpidorsa_overload(table, buffer, place)
}

// Request lists that are handed in, and the bench that a caller ticks.

#[unsafe(no_mangle)]
pub extern "C" fn limpidorsa_list<'a, 'b>(table: &'a [u8], list: &'b [u8]) -> Listed
    ensures { result ≡ flat_listed (list_asked table.now list.now) }
{
    desk::lists::limpidorsa_list(table, list)
}

#[unsafe(no_mangle)]
pub extern "C" fn limpidorsa_load<'a, 'b>(table: &'a [u8], list: &'b [u8]) -> Loaded
    ensures { result ≡ flat_loaded (load_asked table.now list.now) }
{
    desk::lists::limpidorsa_load(table, list)
}

#[unsafe(no_mangle)]
pub extern "C" fn limpidorsa_replay<'a, 'b>(table: &'a [u8], list: &'b [u8]) -> Ending
    ensures { result ≡ flat_ending (replay_asked table.now list.now) }
{
    desk::lists::limpidorsa_replay(table, list)
}

#[unsafe(no_mangle)]
pub extern "C" fn limpidorsa_tick(state: State) -> State
    ensures { result ≡ flat_tick state }
{
    desk::ticks::limpidorsa_tick(state)
}
