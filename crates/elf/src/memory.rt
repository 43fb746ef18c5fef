// The guest memory that the segments of a load take, which is at least their file bytes. Not one function with
// `parts::part`: the size is `p_memsz`, the type is `Extent`, and the image's place is not part of it.
ghost use Rattle.std.specs.Prelude.{◌≡◌};
ghost use Rattle.elf.specs.Memory.{header_memory, memory_of};

use crate::program_headers;
use crate::program_headers::ProgramHeader;
use guest::{Extent, GuestAddress, addresses};

// The memory of a program header, if it is loadable.
#[tactic(auto, unfolding(answers::specs::Pick::pick, crate::specs::ProgramHeaders::segment_address, crate::specs::Memory::header_memory))]
fn memory_of(shift: GuestAddress, h: ProgramHeader) -> Extent
    ensures { result ≡ header_memory shift.0 h }
{
    let Some(at) = program_headers::address(shift, h) else {
        return Extent::default();
    };
    Extent {
        at,
        size: h.p_memsz,
    }
}

// The memory of program header i of a load; from the count of headers on there is none.
#[tactic(auto, unfolding(answers::specs::Pick::pick, crate::specs::ProgramHeaders::header_in, crate::specs::Memory::memory_at, crate::specs::Memory::memory_of))]
pub fn memory(image: &[u8], kernel_offset: Option<GuestAddress>, i: u64) -> Extent
    ensures { result ≡ memory_of image.now kernel_offset i }
{
    let Some(h) = program_headers::nth(image, i) else {
        return Extent::default();
    };
    memory_of(GuestAddress(addresses::amount(kernel_offset)), h)
}
