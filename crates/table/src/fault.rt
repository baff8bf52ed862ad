// The refusals of document 01's table by name: for what a table, a list or a question is refused.
ghost use Rattle.std.specs.Prelude.{◌≡◌};
ghost use Rattle.table.specs.Faults.{number_of, refusal_at};

// Each has its number there, and nowhere else in the code; C is told the last of them (desk's LAST_REFUSAL).
#[derive(Clone, Copy, Debug, PartialEq, Eq)]
pub enum Fault {
    BadLength = 1,
    OffRun = 2,
    BadKind = 3,
    TooMany = 4,
    HasZero = 5,
    Uneven = 6,
    TooFar = 7,
    AboveP = 8,
    NoSuchFrame = 9,
    BadList = 10,
    OutOfTurn = 11,
    NoRoom = 12,
    NotOverloaded = 13,
}

// "Every refusal is a refusal number with the record index." A number of document 01's table, and the index of the
// record that it carries; 0 and 0 where nothing was refused. In C's layout, for the desk hands it out as it is.
#[repr(C)]
#[derive(Clone, Copy, Debug, PartialEq, Eq)]
pub struct Refusal {
    pub number: u8,
    pub index: usize,
}

impl Fault {
    // The refusal that carries record `index`.
    pub fn at(self, index: usize) -> Refusal
        ensures { result ≡ refusal_at (number_of self) index }
    {
        Refusal {
            number: self as u8,
            index,
        }
    }

    // The refusal that carries no record.
    pub fn alone(self) -> Refusal
        ensures { result ≡ refusal_at (number_of self) 0 }
    {
        self.at(0)
    }
}
