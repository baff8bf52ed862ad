// The frames of one task, by their numbers.
ghost use Rattle.std.specs.Prelude.{◌≡◌, ◌+◌, ◌%◌, ◌<◌};
ghost use Rattle.table.specs.Ready.{task_in, FrameIs};

use crate::record::{Record, record_at};
use crate::task_run::TaskRun;

// The number of the frame after frame i of so many.
pub fn following(frames: usize, i: usize) -> usize
    requires { i < frames }
    ensures { result ≡ (i + 1) % frames }
{
    // not by `%`: every step of every sum comes here, and a division makes them several times as long
    if i + 1 < frames { i + 1 } else { 0 }
}

impl TaskRun<'_> {
    // Frame i. The hint is for the sums, as that of `record_at`.
    #[inline(always)]
    pub fn frame(&self, i: usize) -> Record
        requires { i < self.now.frames }
        ensures { FrameIs (task_in self.now) i result }
    {
        record_at(self.bytes, self.first + i)
    }

    // The number of the frame after frame i.
    pub fn next(&self, i: usize) -> usize
        requires { i < self.now.frames }
        ensures { result ≡ (i + 1) % self.now.frames }
    {
        following(self.frames, i)
    }
}
