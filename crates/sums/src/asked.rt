// The two sums that are asked of a task.

// By which condition a frame counts, where its offset is the time from the start to it.
#[derive(Clone, Copy)]
pub enum Sum {
    // its offset plus D is at most t
    Demand,
    // its offset is below t
    Work,
}
