// Whether there is room in a lent buffer: refusal 12.
ghost use Rattle.std.specs.Prelude.{◌≡◌};
ghost use Rattle.place.specs.Place.{no_room};

// Whether a buffer of `len` bytes has no room for n bytes from the place on.
pub fn has_no_room(len: usize, place: usize, n: usize) -> bool
    ensures { result ≡ no_room len place n }
{
    len.checked_sub(place).is_none_or(|rest| rest < n)
}
