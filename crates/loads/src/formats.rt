// What each format gives: its magic number, its answer, how many parts it has, and each part by its number. The
// functions are named as those of the formats that they call. `image` and `options` stay two parameters: a clause on a
// struct of both reads `kernel.image.now` for `image.now`, no plainer.
ghost use Rattle.std.specs.Prelude.{◌≡◌};
ghost use Rattle.loads.specs.Formats.{answer_of, count_of, only_at, part_of, memory_of};
ghost use Rattle.loads.specs.Kinds.{kind_of};
ghost use Rattle.loads.specs.Layout.{layout_of, part_in, HeaderLies};

use crate::{Format, Options};
use answers::Refusal;
use bzimage::setup_header;
use fields::{numbers, tags};
use guest::{Extent, GuestAddress, ImagePlace, KernelLoaderResult, Memory, Part, addresses, parts};

// The format whose magic number the image has, checked in this order.
pub fn kind_of(image: &[u8]) -> Option<Format>
    ensures { result ≡ kind_of image.now }
{
    if tags::is_tag(image, 0, b"\x7fELF") {
        return Some(Format::Elf);
    }
    if numbers::read_u32(image, setup_header::place(setup_header::HEADER).0) == 0x5372_6448 {
        return Some(Format::BzImage);
    }
    if numbers::read_u32(image, 56) == 0x644D_5241 {
        return Some(Format::Arm64);
    }
    None
}

// What a load into this memory returns.
pub fn plan(memory: &Memory, image: &[u8], options: Options) -> Result<KernelLoaderResult, Refusal>
    ensures { result ≡ answer_of image.now memory.now options }
{
    let offset = options.kernel_offset;
    match options.format {
        Format::Elf => elf::parts::plan(memory, image, offset, options.highmem_start),
        Format::BzImage => bzimage::parts::plan(memory, image, offset, options.highmem_start),
        Format::Arm64 => arm64::parts::plan(memory, image, GuestAddress(addresses::amount(offset))),
    }
}

// How many parts a load has.
pub fn count(image: &[u8], options: Options) -> u64
    ensures { result ≡ count_of image.now options }
{
    match options.format {
        Format::Elf => elf::parts::count(image),
        Format::BzImage | Format::Arm64 => 1,
    }
}

// Element i of a list that has one element only; past it there is none.
fn only<T: Drop>(one: T, none: T, i: u64) -> T
    ensures { result ≡ only_at one none i }
{
    if i == 0 { one } else { none }
}

// Part i of a load; from the count on there is none. The plan tests whether it has room.
pub fn part(image: &[u8], options: Options, i: u64) -> Part
    ensures { result ≡ part_of image.now options i }
{
    let offset = options.kernel_offset;
    match options.format {
        Format::Elf => elf::parts::part(image, offset, i),
        Format::BzImage => only(bzimage::parts::part(image, offset), Part::default(), i),
        Format::Arm64 => only(
            arm64::parts::part(image, GuestAddress(addresses::amount(offset))),
            Part::default(),
            i,
        ),
    }
}

// The memory that part i of a load takes, which may be more than its bytes; from the count on there is none.
pub fn memory(image: &[u8], options: Options, i: u64) -> Extent
    ensures { result ≡ memory_of image.now options i }
{
    let offset = options.kernel_offset;
    match options.format {
        Format::Elf => elf::memory::memory(image, offset, i),
        Format::BzImage => only(
            bzimage::protocol::runtime_memory(image, offset),
            Extent::default(),
            i,
        ),
        Format::Arm64 => only(
            arm64::parts::memory(image, GuestAddress(addresses::amount(offset))),
            Extent::default(),
            i,
        ),
    }
}

// What the parts of a load are read from: the table of program headers, or the one part. Neither of the two is
// an absence or an error, so it is no `Option` and no `Result`.
#[derive(Clone, Copy)]
pub(crate) enum Layout {
    // where it begins, and what is added to each address
    Table(ImagePlace, GuestAddress),
    One(Part),
}

pub(crate) fn read_layout(image: &[u8], options: Options) -> Layout
    ensures { result ≡ layout_of image.now options }
{
    let base = GuestAddress(addresses::amount(options.kernel_offset));
    match options.format {
        Format::Elf => Layout::Table(elf::parts::table(image), base),
        Format::BzImage => Layout::One(bzimage::parts::part(image, options.kernel_offset)),
        Format::Arm64 => Layout::One(arm64::parts::part(image, base)),
    }
}

// Part i of a load whose program headers lie in the image.
pub(crate) fn part_in(image: &[u8], layout: Layout, i: u64) -> Part
    requires { HeaderLies image.now layout i }
    ensures { result ≡ part_in image.now layout i }
{
    match layout {
        Layout::Table(table, shift) => {
            let from = (table.0 + 56 * i) as usize;
            elf::parts::of_header(&image[from..from + 56], shift)
        }
        Layout::One(part) => part,
    }
}
