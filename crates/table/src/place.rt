// Where a task stands in the table.

// Its first record, and its number of frames.
#[derive(Clone, Copy)]
pub struct Place {
    pub first: usize,
    pub frames: usize,
}
