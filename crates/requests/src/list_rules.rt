// The rules 10 and 11: document 01, "When the desk says no".
ghost use Rattle.std.specs.Prelude.{◌≡◌, ◌<◌};
ghost use Rattle.model.specs.Request.{HasFrame};
ghost use Rattle.table.specs.Faults.{faulted};
ghost use Rattle.table.specs.Ready.{table_in};
ghost use Rattle.requests.specs.ListReader.{list_fault};
ghost use Rattle.requests.specs.ListRules.{out_of_order, misplaced, off_turn, out_of_turn};
ghost use Rattle.requests.specs.ListRules.{turn_after, list_after};

use crate::entry::Entry;
use table::fault::Fault;
use table::task_table::TaskTable;

// "arrivals 0 to 65,535"
pub const LAST_ARRIVAL: u32 = 65535;

// What has to come next of a task: its frame, and the soonest that it may come, which may be past the 32 bits of an
// arrival.
#[derive(Clone, Copy)]
pub struct Turn {
    pub frame: usize,
    pub soonest: u64,
}

// What the records so far say. The next record comes after `arrival`, or at it with a task from `task` on; and of each
// task that has a record, what has to come next. Before the first record any may come.
#[derive(Clone, Copy, Default)]
pub struct Carry {
    pub arrival: u32,
    pub task: u16,
    pub turns: [Option<Turn>; 16],
}

impl Turn {
    // What has to come after record x in its task.
    fn after(table: &TaskTable, x: Entry) -> Turn
        requires { HasFrame (table_in table.now) x.task x.frame }
        ensures { result ≡ turn_after (table_in table.now) x }
    {
        let task = table.task(usize::from(x.task));
        let frame = usize::from(x.frame);
        Turn {
            frame: task.next(frame),
            soonest: u64::from(x.arrival) + u64::from(task.frame(frame).p),
        }
    }

    // Whether record x of the task has another frame or comes too soon.
    fn is_off(self, x: Entry) -> bool
        ensures { result ≡ off_turn (Some self) x }
    {
        usize::from(x.frame) != self.frame || u64::from(x.arrival) < self.soonest
    }
}

impl Carry {
    fn is_out_of_order(&self, x: Entry) -> bool
        ensures { result ≡ out_of_order self.now x }
    {
        (x.arrival, u16::from(x.task)) < (self.arrival, self.task)
    }

    fn is_misplaced(&self, table: &TaskTable, last: u32, x: Entry) -> bool
        ensures { result ≡ misplaced last (table_in table.now) self.now x }
    {
        x.pad != 0
            || table.is_missing(u64::from(x.task), u64::from(x.frame))
            || last < x.arrival
            || self.is_out_of_order(x)
    }

    fn is_out_of_turn(&self, x: Entry) -> bool
        requires { x.task < 16 }
        ensures { result ≡ out_of_turn self.now x }
    {
        self.turns[usize::from(x.task)].is_some_and(|turn| turn.is_off(x))
    }

    // The first rule that record x breaks after these, where no arrival may be past `last`.
    pub fn fault(&self, table: &TaskTable, last: u32, x: Entry) -> Option<Fault>
        ensures { faulted result ≡ list_fault last (table_in table.now) self.now x }
    {
        if self.is_misplaced(table, last, x) {
            return Some(Fault::BadList);
        }
        self.is_out_of_turn(x).then_some(Fault::OutOfTurn)
    }

    // Record x, which breaks none, is one of these.
    pub fn after(&mut self, table: &TaskTable, x: Entry)
        requires { HasFrame (table_in table.now) x.task x.frame }
        ensures { self.new ≡ list_after (table_in table.now) self.old x }
    {
        self.turns[usize::from(x.task)] = Some(Turn::after(table, x));
        self.arrival = x.arrival;
        self.task = u16::from(x.task) + 1;
    }
}
