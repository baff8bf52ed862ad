// The bench's state: document 01, "The replay bench".
use requests::list_reader::MOST_REQUESTS;

// "All runs end by tick 131,070."
pub const LAST_TICK: u32 = 131070;

#[derive(Clone, Copy)]
pub enum Outcome {
    Running,
    Missed(usize),
    AllMet,
}

// "The bench keeps 128 amounts left": what each request has left, and beside it its deadline, its arrival, the tick
// from which it may run, and its task; all zero where there is no request. `Missed` names the record, and the tick of a
// miss or of *all met* is the state's own. Five arrays, and not one of structs: C's state lays out the same five, and
// they go in and out at each tick.
#[derive(Clone, Copy)]
pub struct Bench {
    pub tick: u32,
    pub left: [u32; MOST_REQUESTS],
    pub due: [u32; MOST_REQUESTS],
    pub arrive: [u32; MOST_REQUESTS],
    pub release: [u32; MOST_REQUESTS],
    pub task: [u8; MOST_REQUESTS],
    pub outcome: Outcome,
}
