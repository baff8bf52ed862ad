// One record of a request list: document 01, "The replay bench".
ghost use Rattle.std.specs.Prelude.{◌≡◌, ◌+◌, ◌*◌, ◌≤◌, length};
ghost use Rattle.requests.specs.Entry.{entry_size, entry_of};

// The bytes of one request record.
pub const ENTRY_SIZE: usize = 8;

// A request with its two pad bytes, which rule 10 wants zero.
#[derive(Clone, Copy)]
pub struct Entry {
    pub task: u8,
    pub frame: u8,
    pub pad: u16,
    pub arrival: u32,
}

// Record i of a list.
pub fn entry_at(list: &[u8], i: usize) -> Entry
    requires { (i + 1) * entry_size ≤ length list.now }
    ensures { result ≡ entry_of list.now i }
{
    let at = i * ENTRY_SIZE;
    Entry {
        task: list[at],
        frame: list[at + 1],
        pad: u16::from_le_bytes([list[at + 2], list[at + 3]]),
        arrival: u32::from_le_bytes([list[at + 4], list[at + 5], list[at + 6], list[at + 7]]),
    }
}
