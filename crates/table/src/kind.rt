// The kinds of a task: document 01, "A table, record by record".
ghost use Rattle.table.specs.Kinds.{KindOf};

use crate::fault::Fault;

#[derive(Clone, Copy, Debug, PartialEq, Eq)]
pub enum Kind {
    // "one frame"
    Sporadic,
    // "every D equals its P, and all P of the task are equal"
    Multiframe,
    Generalized,
}

impl TryFrom<u8> for Kind {
    type Error = Fault;

    ghost try_from_gives = { KindOf };

    fn try_from(byte: u8) -> Result<Kind, Fault> {
        match byte {
            1 => Ok(Kind::Sporadic),
            2 => Ok(Kind::Multiframe),
            3 => Ok(Kind::Generalized),
            _ => Err(Fault::BadKind),
        }
    }
}
