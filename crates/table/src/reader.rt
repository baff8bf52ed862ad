// The table reader: the refusals of a table itself.
ghost use Rattle.std.specs.Prelude.{◌≡◌};
ghost use Rattle.table.specs.TableReader.{bad_table_length, reading_of};

use crate::fault::{Fault, Refusal};
use crate::record::{SIZE, record_at};
use crate::rules::SoFar;

// The most records of a table.
pub const MOST_RECORDS: usize = 64;

#[derive(Clone, Copy)]
pub struct Shape {
    pub records: usize,
    pub tasks: usize,
}

fn is_bad_table_length(n: usize) -> bool
    ensures { result ≡ bad_table_length n }
{
    n == 0 || MOST_RECORDS * SIZE < n || n % SIZE != 0
}

// The whole table: its shape, or the first refusal.
pub fn read_table(s: &[u8]) -> Result<Shape, Refusal>
    ensures { result ≡ reading_of s.now }
{
    let len = s.len();
    if is_bad_table_length(len) {
        return Err(Fault::BadLength.alone());
    }
    let records = len / SIZE;
    let mut known = SoFar::default();
    for i in 0..records {
        let x = record_at(s, i);
        if let Some(fault) = known.fault(x) {
            return Err(fault.at(i));
        }
        known = known.after(x);
    }
    Ok(Shape {
        records,
        tasks: usize::from(known.tasks),
    })
}
