// The answers: flat structs in C's layout, the refusal in front.
use crate::limits::MOST_REQUESTS;
use table::fault::Refusal;

// Nothing was refused: no refusal has the number 0.
pub const NONE: Refusal = Refusal {
    number: 0,
    index: 0,
};

// How many tasks and records a table has.
#[repr(C)]
#[derive(Clone, Copy)]
pub struct Shape {
    pub refusal: Refusal,
    pub tasks: usize,
    pub records: usize,
}

// A demand or a work.
#[repr(C)]
#[derive(Clone, Copy)]
pub struct Amount {
    pub refusal: Refusal,
    pub amount: u64,
}

// Below zero where more is asked than there is time.
#[repr(C)]
#[derive(Clone, Copy)]
pub struct Margin {
    pub refusal: Refusal,
    pub margin: i64,
}

// The closing window; `window` is 0 where no window closes.
#[repr(C)]
#[derive(Clone, Copy)]
pub struct Window {
    pub refusal: Refusal,
    pub closes: bool,
    pub window: u64,
}

// What `verdict` is in an answer; it is 0 in a refusal.
pub const OVERLOADED: u8 = 1;

pub const FITS: u8 = 2;

pub const UNDECIDED: u8 = 3;

// Overloaded: `t`, the least with a margin below zero, its `margin`, and the sixteen start frames, one for each task.
// Fits: the closing `window`, the least `margin` up to it, and the first `t` that has it.
#[repr(C)]
#[derive(Clone, Copy)]
pub struct Verdict {
    pub refusal: Refusal,
    pub verdict: u8,
    pub t: u64,
    pub margin: i64,
    pub window: u64,
    pub starts: [u8; 16],
}

// On time: the value that repeats, and its round. Late: the first value that passes D, and its round.
#[repr(C)]
#[derive(Clone, Copy)]
pub struct Response {
    pub refusal: Refusal,
    pub late: bool,
    pub value: u64,
    pub round: u64,
}

// How many bytes the overload list has, or were written from the place on.
#[repr(C)]
#[derive(Clone, Copy)]
pub struct Written {
    pub refusal: Refusal,
    pub bytes: usize,
}

// How many records a legal list has.
#[repr(C)]
#[derive(Clone, Copy)]
pub struct Listed {
    pub refusal: Refusal,
    pub records: usize,
}

// A miss with its tick and its record, or *all met* with the tick after the last unit; then `index` is 0.
#[repr(C)]
#[derive(Clone, Copy)]
pub struct Ending {
    pub refusal: Refusal,
    pub missed: bool,
    pub tick: u32,
    pub index: usize,
}

// What `outcome` is in a state. Any other number is a bench that has stopped.
pub const RUNNING: u8 = 0;

pub const MISSED: u8 = 1;

pub const ALL_MET: u8 = 2;

// The bench before a tick: what each request has left, its deadline, its arrival, its release, which is the tick from
// which it may run (that of its arrival), and its task, in the list's order, and zero where there is no request.
// `index` is the record that missed, and 0 in any other outcome.
#[repr(C)]
#[derive(Clone, Copy)]
pub struct State {
    pub tick: u32,
    pub outcome: u8,
    pub index: usize,
    pub left: [u32; MOST_REQUESTS],
    pub due: [u32; MOST_REQUESTS],
    pub arrive: [u32; MOST_REQUESTS],
    pub release: [u32; MOST_REQUESTS],
    pub task: [u8; MOST_REQUESTS],
}

// How many records the list has, and the bench that is loaded with it; of a refused list, a bench with nothing to do.
#[repr(C)]
#[derive(Clone, Copy)]
pub struct Loaded {
    pub refusal: Refusal,
    pub records: usize,
    pub state: State,
}
