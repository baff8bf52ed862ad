// The rules 2 to 6, one under the other: document 01, "When the desk says no".
ghost use Rattle.std.specs.Prelude.{◌≡◌, ◌<◌};
ghost use Rattle.table.specs.Faults.{faulted};
ghost use Rattle.table.specs.TableReader.{table_fault};
ghost use Rattle.table.specs.TableRules.{begins, goes_on, off_run, bad_kind, too_many, has_zero, uneven, table_after};

use crate::fault::Fault;
use crate::kind::Kind;
use crate::record::Record;

// What the records so far say: how many tasks, and of the last one its frames so far, its kind and its first P. Before
// the first record all are zero.
#[derive(Clone, Copy, Default)]
pub struct SoFar {
    pub tasks: u16,
    pub frames: u16,
    pub kind: u8,
    pub p: u16,
}

fn has_zero(x: Record) -> bool
    ensures { result ≡ has_zero x }
{
    x.e == 0 || x.d == 0 || x.p == 0
}

impl SoFar {
    fn begins(self, x: Record) -> bool
        ensures { result ≡ begins self x }
    {
        u16::from(x.task) == self.tasks
    }

    fn goes_on(self, x: Record) -> bool
        ensures { result ≡ goes_on self x }
    {
        u16::from(x.task) + 1 == self.tasks
    }

    fn is_off_run(self, x: Record) -> bool
        ensures { result ≡ off_run self x }
    {
        15 < x.task || !(self.begins(x) || self.goes_on(x))
    }

    fn is_bad_kind(self, x: Record) -> bool
        ensures { result ≡ bad_kind self x }
    {
        let Ok(kind) = Kind::try_from(x.kind) else {
            return true;
        };
        self.goes_on(x) && (x.kind != self.kind || kind == Kind::Sporadic)
    }

    fn is_too_many(self, x: Record) -> bool
        ensures { result ≡ too_many self x }
    {
        self.goes_on(x) && 16 <= self.frames
    }

    fn is_uneven(self, x: Record) -> bool
        ensures { result ≡ uneven self x }
    {
        Kind::try_from(x.kind) == Ok(Kind::Multiframe)
            && (x.d != x.p || self.goes_on(x) && x.p != self.p)
    }

    // The first rule that record x breaks after these.
    pub fn fault(self, x: Record) -> Option<Fault>
        ensures { faulted result ≡ table_fault self x }
    {
        if self.is_off_run(x) {
            return Some(Fault::OffRun);
        }
        if self.is_bad_kind(x) {
            return Some(Fault::BadKind);
        }
        if self.is_too_many(x) {
            return Some(Fault::TooMany);
        }
        if has_zero(x) {
            return Some(Fault::HasZero);
        }
        self.is_uneven(x).then_some(Fault::Uneven)
    }

    // What is known after record x, which breaks none.
    pub fn after(self, x: Record) -> SoFar
        requires { self.frames < 1000 }
        ensures { result ≡ table_after self x }
    {
        if self.begins(x) {
            SoFar {
                tasks: u16::from(x.task) + 1,
                frames: 1,
                kind: x.kind,
                p: x.p,
            }
        } else {
            SoFar {
                frames: self.frames + 1,
                ..self
            }
        }
    }
}
