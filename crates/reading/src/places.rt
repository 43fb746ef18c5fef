// The number at a place of a slice, and the place after it.
ghost use Rattle.std.specs.Prelude.{◌≡◌};
ghost use Rattle.reading.specs.Places.{NumberAt, place_past};

use fields::numbers;
use guest::ImagePlace;

// The number of `width` bytes at a place; a width above 8 counts as 8. Four bytes, as a note's header has three times,
// are read at once.
pub(crate) fn number_at(image: &[u8], at: ImagePlace, width: u64) -> u64
    ensures { NumberAt image.now at.0 width result }
{
    if width == 4 {
        numbers::read_u32(image, at.0)
    } else {
        numbers::read_le(image, at.0, width)
    }
}

// The place past a number of `width` bytes, if it is a number of 64 bits, else the greatest such number.
pub(crate) fn place_past(at: ImagePlace, width: u64) -> ImagePlace
    ensures { result ≡ place_past at width }
{
    ImagePlace(at.0.saturating_add(numbers::bytes_of(width)))
}
