// Where each task stands while its requests are woven into one list.
ghost use Rattle.std.specs.Prelude.{◌≡◌, ◌*◌, ◌≤◌, ◌<◌};
ghost use Rattle.laws.specs.Search.{option_of};
ghost use Rattle.table.specs.Ready.{task_in};
ghost use Rattle.requests.specs.Entry.{entry_bytes, widest};
ghost use Rattle.overload.specs.Lanes.{front, lane_moved, Movable, next_request, total_left};

use requests::entry::ENTRY_SIZE;
use table::task_run::TaskRun;

// Of one task: how many of its requests are left, and the frame and the arrival of the next.
#[derive(Clone, Copy)]
pub struct Lane {
    pub left: u32,
    pub frame: u8,
    pub arrival: u32,
}

impl Lane {
    // The bytes of its next request, where it is task k's.
    pub fn next_bytes(&self, k: usize) -> [u8; ENTRY_SIZE]
        requires { k < 16 }
        ensures { result ≡ entry_bytes (next_request self.now k) }
    {
        let [a, b, c, d] = self.arrival.to_le_bytes();
        [k as u8, self.frame, 0, 0, a, b, c, d]
    }

    // That request is taken, and the task's next comes as early as it may.
    pub fn move_on(&mut self, task: &TaskRun)
        requires { Movable (task_in task.now) self.old }
        ensures { self.new ≡ lane_moved (task_in task.now) self.old }
    {
        let i = usize::from(self.frame);
        self.left -= 1;
        self.frame = task.next(i) as u8;
        self.arrival += u32::from(task.frame(i).p);
    }
}

// One for each task.
#[derive(Clone, Copy)]
pub struct Lanes {
    pub each: [Lane; 16],
}

impl Lanes {
    // How many requests are left.
    pub fn count_left(&self) -> usize
        ensures is { result ≡ total_left self.now }
        ensures small { result ≤ 16 * widest }
    {
        // not by `sum()`, which asks that the total fits before a summand is known
        let mut sum: usize = 0;
        for lane in &self.each {
            sum += lane.left as usize;
        }
        sum
    }

    // The task whose next request comes first: the lower one at equal arrivals.
    pub fn front(&self, tasks: usize) -> Option<usize>
        requires { tasks ≤ 16 }
        ensures { result ≡ option_of (front tasks self.now) }
    {
        (0..tasks)
            .filter(|&k| 0 < self.each[k].left)
            .min_by_key(|&k| self.each[k].arrival)
    }
}
