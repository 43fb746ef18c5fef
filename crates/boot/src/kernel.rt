// The memory that a kernel uses, against what else is in guest memory. `is_apart`, `has_room` and `is_listed` stay
// three: the body of each is one call of `all`, and one function over a closure would be no shorter.
ghost use Rattle.std.specs.Prelude.{◌≡◌};
ghost use Rattle.boot.specs.Kernel.{apart_from, written_to, apart_at, room_at};
ghost use Rattle.boot.specs.Kernel.{listed_at, kernel_apart, kernel_room, kernel_listed};
ghost use Rattle.boot.specs.Rows.{width_in, numbers_in};
ghost use Rattle.loads.specs.Formats.{part_of};

use crate::{MapRows, rows};
use fields::ranges;
use guest::{Extent, Memory, room};
use loads::{Options, formats};

// Have two ranges no address in common?
pub(crate) fn are_apart(a: Extent, b: Extent) -> bool
    ensures { result ≡ apart_from a b }
{
    ranges::are_apart(a.at.0, a.size, b.at.0, b.size)
}

// The range that part i is written to.
fn written_to(image: &[u8], options: Options, i: u64) -> Extent
    ensures { result ≡ written_to (part_of image.now options i) }
{
    let part = formats::part(image, options, i);
    Extent {
        at: part.address,
        size: part.size,
    }
}

// Is a range apart from part i and from the memory that the kernel takes there?
fn is_apart_at(image: &[u8], options: Options, range: Extent, i: u64) -> bool
    ensures { result ≡ apart_at image.now options range i }
{
    are_apart(written_to(image, options, i), range)
        && are_apart(formats::memory(image, options, i), range)
}

// Is a range apart from all memory of the kernel?
pub(crate) fn is_apart(image: &[u8], options: Options, range: Extent) -> bool
    ensures { result ≡ kernel_apart image.now options range }
{
    (0..formats::count(image, options)).all(|i| is_apart_at(image, options, range, i))
}

// Has the memory that the kernel takes at part i room?
fn has_room_at(memory: &Memory, image: &[u8], options: Options, i: u64) -> bool
    ensures { result ≡ room_at memory.now image.now options i }
{
    let taken = formats::memory(image, options, i);
    room::room_for(memory, taken.at, taken.size)
}

// Has all memory that the kernel takes room, each range of it in one range of guest memory?
pub(crate) fn has_room(memory: &Memory, image: &[u8], options: Options) -> bool
    ensures { result ≡ kernel_room memory.now image.now options }
{
    (0..formats::count(image, options)).all(|i| has_room_at(memory, image, options, i))
}

// Do part i and the memory that the kernel takes there lie in rows of type 1?
fn is_listed_at(rows: Option<MapRows>, image: &[u8], options: Options, i: u64) -> bool
    ensures { result ≡ listed_at (width_in rows.entry) (numbers_in rows.entry) image.now options i }
{
    rows::is_listed(rows, written_to(image, options, i))
        && rows::is_listed(rows, formats::memory(image, options, i))
}

// Does all memory of the kernel lie in rows of type 1?
pub(crate) fn is_listed(rows: Option<MapRows>, image: &[u8], options: Options) -> bool
    ensures { result ≡ kernel_listed (width_in rows.entry) (numbers_in rows.entry) image.now options }
{
    (0..formats::count(image, options)).all(|i| is_listed_at(rows, image, options, i))
}
