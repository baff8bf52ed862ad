// A table by its tasks: how it is read, how many there are, and each of them.
ghost use Rattle.std.specs.Prelude.{◌≡◌, ◌<◌, IfOk, Ok};
ghost use Rattle.model.specs.Request.{HasFrame, no_frame};
ghost use Rattle.table.specs.TableReader.{reading_of};
ghost use Rattle.table.specs.Ready.{table_in, task_in, shape_of, StandsAt, FrameIs, Frames};

use crate::fault::Refusal;
use crate::place::Place;
use crate::plan::make_plan;
use crate::reader::{Shape, read_table};
use crate::record::Record;
use crate::task_run::TaskRun;
use crate::task_table::TaskTable;

impl<'a> TaskTable<'a> {
    // The table that the bytes are, or the first refusal.
    pub fn read(bytes: &'a [u8]) -> Result<TaskTable<'a>, Refusal>
        ensures shape { shape_of result ≡ reading_of bytes.now }
        ensures bytes { IfOk result (λ table. table.bytes.now ≡ bytes.now) }
    {
        let shape = read_table(bytes)?;
        Ok(TaskTable::of(bytes, shape))
    }

    // The table of bytes that were read. Apart from `read`, since a question that the shape or its own numbers refuse
    // needs no plan, and that walks over all records 17 times.
    pub fn of(bytes: &'a [u8], shape: Shape) -> TaskTable<'a>
        requires { reading_of bytes.now ≡ Ok shape }
        ensures { result.bytes.now ≡ bytes.now }
    {
        TaskTable {
            bytes,
            shape,
            plan: make_plan(bytes, shape.records, shape.tasks),
        }
    }

    pub fn tasks(&self) -> usize
        ensures { result ≡ (table_in self.now).tasks }
    {
        self.plan.tasks
    }

    // Where task k stands.
    pub fn place_of(&self, k: usize) -> Place
        requires { k < (table_in self.now).tasks }
        ensures { StandsAt self.now.bytes.now k result }
    {
        let first = self.plan.first[k];
        Place {
            first,
            frames: self.plan.first[k + 1] - first,
        }
    }

    // The records of task k.
    pub fn task(&self, k: usize) -> TaskRun<'a>
        requires { k < (table_in self.now).tasks }
        ensures { task_in result ≡ (table_in self.now).task k }
    {
        let place = self.place_of(k);
        TaskRun {
            bytes: self.bytes,
            first: place.first,
            frames: place.frames,
        }
    }

    // Whether the table has no task k, or the task no frame i.
    pub fn is_missing(&self, k: u64, i: u64) -> bool
        ensures { result ≡ no_frame (table_in self.now) k i }
    {
        if self.tasks() as u64 <= k {
            return true;
        }
        self.count_frames(k as usize) as u64 <= i
    }

    // The number of frames of task k.
    pub fn count_frames(&self, k: usize) -> usize
        requires { k < (table_in self.now).tasks }
        ensures { Frames ((table_in self.now).task k) result }
    {
        self.task(k).frames
    }

    // Frame i of task k.
    pub fn frame_at(&self, k: usize, i: usize) -> Record
        requires { HasFrame (table_in self.now) k i }
        ensures { FrameIs ((table_in self.now).task k) i result }
    {
        self.task(k).frame(i)
    }
}
