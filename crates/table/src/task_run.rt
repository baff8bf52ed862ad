// The records of one task, which stand one after the other.
ghost use Rattle.std.specs.Prelude.{◌+◌, ◌*◌, ◌≤◌, length};
ghost use Rattle.model.specs.Task.{Proper};
ghost use Rattle.table.specs.Bytes.{size};
ghost use Rattle.table.specs.TableOf.{task_of};

// The bytes of the table, the task's first record, and its number of frames.
#[derive(Clone, Copy)]
pub struct TaskRun<'a> {
    pub bytes: &'a [u8],
    pub first: usize,
    pub frames: usize,
    pub ghost inside: { (first + frames) * size ≤ length bytes.now },
    pub ghost proper: { Proper (task_of bytes.now first frames) },
}
