// The plan of a load and its parts: what the load returns, and which image bytes go where. There is one part for each
// program header, in file order. `plan`, `part` and `count` are named as in the other formats, and their bodies follow
// the ELF specification alone. `shift` and `h` stay two parameters: no fact joins them, and a struct would be filled
// before each call.
ghost use Rattle.std.specs.Prelude.{◌≡◌, ◌<◌};
ghost use Rattle.elf.specs.Header.{e_phoff_of, e_phnum_of};
ghost use Rattle.elf.specs.Parts.{header_part, own_part, part_of};
ghost use Rattle.elf.specs.Pouring.{plan_of};

use crate::program_headers::ProgramHeader;
use crate::{program_headers, survey};
use answers::Refusal;
use fields::numbers;
use guest::{GuestAddress, ImagePlace, KernelLoaderResult, Memory, Part, addresses};

// What a load into this memory returns. The four parameters are those of linux-loader's `load`; a struct of the two
// addresses would be filled in `loads` and read here, and no plainer.
pub fn plan(
    memory: &Memory,
    image: &[u8],
    kernel_offset: Option<GuestAddress>,
    highmem_start: Option<GuestAddress>,
) -> Result<KernelLoaderResult, Refusal>
    ensures { result ≡ (plan_of image.now memory.now kernel_offset highmem_start).answer }
{
    survey::answer_load(image, memory, kernel_offset, highmem_start)
}

// How many parts a load has.
pub fn count(image: &[u8]) -> u64
    ensures { result ≡ e_phnum_of image.now }
{
    numbers::read_u16(image, 56)
}

// The part of a program header: its file bytes, if it is loadable.
#[tactic(auto, unfolding(answers::specs::Pick::pick, crate::specs::ProgramHeaders::segment_address, crate::specs::Parts::header_part))]
fn part_of(shift: GuestAddress, h: ProgramHeader) -> Part
    ensures { result ≡ header_part shift.0 h }
{
    let Some(address) = program_headers::address(shift, h) else {
        return Part::default();
    };
    Part {
        address,
        place: h.p_offset,
        size: h.p_filesz,
    }
}

// The part of a program header whose bytes these are; fewer than its 56 bytes have none.
#[tactic(auto, unfolding(answers::specs::Pick::pick, crate::specs::Parts::own_part))]
pub fn of_header(header: &[u8], shift: GuestAddress) -> Part
    ensures { result ≡ own_part header.now shift.0 }
{
    if header.len() < 56 {
        return Part::default();
    }
    part_of(shift, program_headers::read_at(header, ImagePlace(0)))
}

// Where the program headers begin in the image.
pub fn table(image: &[u8]) -> ImagePlace
    ensures { result ≡ record { 0 = e_phoff_of image.now } }
{
    ImagePlace(numbers::read_u64(image, 32))
}

// Part i of a load; from the count on there is none. Whether it has room is tested by the plan.
#[tactic(auto, unfolding(answers::specs::Pick::pick, crate::specs::ProgramHeaders::header_in, crate::specs::Parts::part_at, crate::specs::Parts::part_of))]
pub fn part(image: &[u8], kernel_offset: Option<GuestAddress>, i: u64) -> Part
    ensures { result ≡ part_of image.now kernel_offset i }
{
    let Some(h) = program_headers::nth(image, i) else {
        return Part::default();
    };
    part_of(GuestAddress(addresses::amount(kernel_offset)), h)
}
