// One record of a table: document 01, "A table, record by record".
ghost use Rattle.std.specs.Prelude.{◌≡◌, ◌+◌, ◌*◌, ◌<◌, ◌≤◌, length};
ghost use Rattle.table.specs.Bytes.{size, half, record_of};

// The bytes of one record.
pub const SIZE: usize = 8;

#[derive(Clone, Copy)]
pub struct Record {
    pub task: u8,
    // the byte that was read: rule 3 refuses those that are no kind
    pub kind: u8,
    pub e: u16,
    pub d: u16,
    pub p: u16,
}

// 16 bits at a place, low byte first.
pub fn half_at(s: &[u8], at: usize) -> u16
    requires { at + 1 < length s.now }
    ensures { result ≡ half s.now at }
{
    u16::from_le_bytes([s[at], s[at + 1]])
}

// Its fields are read where they are asked for; without the hint a step of a sum takes them out of one word.
#[inline(always)]
pub fn record_at(s: &[u8], i: usize) -> Record
    requires { (i + 1) * size ≤ length s.now }
    ensures { result ≡ record_of s.now i }
{
    let at = i * SIZE;
    Record {
        task: s[at],
        kind: s[at + 1],
        e: half_at(s, at + 2),
        d: half_at(s, at + 4),
        p: half_at(s, at + 6),
    }
}
