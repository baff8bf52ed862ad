// A table that was read.
ghost use Rattle.std.specs.Prelude.{◌≡◌, Ok};
ghost use Rattle.table.specs.Bytes.{Bytes};
ghost use Rattle.table.specs.TableReader.{reading_of};
ghost use Rattle.table.specs.TableOf.{plan_of};

use crate::plan::Plan;
use crate::reader::Shape;

// Its bytes, what they are as a table, and where each task stands.
#[derive(Clone, Copy)]
pub struct TaskTable<'a> {
    pub bytes: &'a [u8],
    pub shape: Shape,
    pub plan: Plan,
    pub ghost small: { Bytes bytes.now },
    pub ghost read: { reading_of bytes.now ≡ Ok shape },
    pub ghost planned: { plan ≡ plan_of bytes.now shape.records shape.tasks },
}
