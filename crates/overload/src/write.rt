// The overload list as a caller asks for it: how many bytes it has, and the list in a lent buffer, or refusal 12.
ghost use Rattle.std.specs.Prelude.{◌≡◌, length};
ghost use Rattle.place.specs.Place.{fitted, Wrote};
ghost use Rattle.overload.specs.Listed.{list_bytes};

use crate::overload::Overload;
use place::room::has_no_room;
use requests::entry::ENTRY_SIZE;
use table::fault::{Fault, Refusal};

impl Overload<'_> {
    // How many bytes the list has.
    pub fn list_size(&self) -> usize
        ensures { result ≡ length (list_bytes self.now) }
    {
        self.first_lanes().count_left() * ENTRY_SIZE
    }

    // The list, from a place of the buffer on: how many bytes were written, or the refusal.
    pub fn write_list(&self, buffer: &mut [u8], place: usize) -> Result<usize, Refusal>
        ensures { Wrote buffer.old place (fitted buffer.old place (list_bytes self.now)) result buffer.new }
    {
        let lanes = self.first_lanes();
        let size = lanes.count_left() * ENTRY_SIZE;
        if has_no_room(buffer.len(), place, size) {
            return Err(Fault::NoRoom.alone());
        }
        lanes.put_all(self.table, &mut buffer[place..]);
        Ok(size)
    }
}
