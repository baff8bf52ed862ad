// The numbers of document 01 that a caller may need, by name.
use requests::entry::ENTRY_SIZE;
use table::record::SIZE;

// "t is 0 to 65,536": the greatest t, and the greatest window, that is asked about or searched.
pub const HORIZON: u64 = 65536;

// "arrivals 0 to 65,535": the latest in a request list.
pub const LAST_ARRIVAL: u32 = requests::list_rules::LAST_ARRIVAL;

// "All runs end by tick 131,070": a bench that was loaded stops within `LAST_TICK` + 1 calls of limpidorsa_tick.
pub const LAST_TICK: u32 = bench::state::LAST_TICK;

// "At most 64 records": as many records, and bytes, a table may have.
pub const MOST_RECORDS: usize = table::reader::MOST_RECORDS;

pub const MOST_TABLE_BYTES: usize = MOST_RECORDS * SIZE;

// "A list has 0 to 128 records": as many records, and bytes, a list may have that is replayed. An overload list may
// have more.
pub const MOST_REQUESTS: usize = requests::list_reader::MOST_REQUESTS;

pub const MOST_LIST_BYTES: usize = MOST_REQUESTS * ENTRY_SIZE;

// Every refusal has a number from 1 to this.
pub const LAST_REFUSAL: u8 = 13;
