// The plan of a load and its one part: what the load returns, and which image bytes go where. `plan`, `part` and
// `memory` are named as in the other formats, and their bodies follow Linux's arm64 booting document alone.
ghost use Rattle.std.specs.Prelude.{◌≡◌};
ghost use Rattle.arm64.specs.Memory.{memory_of};
ghost use Rattle.arm64.specs.Parts.{part_of};
ghost use Rattle.arm64.specs.Plan.{plan_of};

use crate::plan;
use answers::Refusal;
use fields::numbers;
use guest::{Extent, GuestAddress, ImagePlace, KernelLoaderResult, Memory, Part};

// What a load into this memory returns.
pub fn plan(
    memory: &Memory,
    image: &[u8],
    base: GuestAddress,
) -> Result<KernelLoaderResult, Refusal>
    ensures { result ≡ (plan_of image.now memory.now base.0).answer }
{
    plan::plan_load(image, memory, base)
}

// The part of a load: the whole file, and none if its address wraps. Whether it has room is tested by the plan.
#[tactic(auto, unfolding(answers::specs::Pick::pick, crate::specs::Image::start_in, crate::specs::Parts::part_of))]
pub fn part(image: &[u8], base: GuestAddress) -> Part
    ensures { result ≡ part_of image.now base.0 }
{
    let Some(address) = plan::start(image, base) else {
        return Part::default();
    };
    Part {
        address,
        place: ImagePlace(0),
        size: image.len() as u64,
    }
}

// The memory that the kernel needs, as its header says, and none if its address wraps.
#[tactic(auto, unfolding(answers::specs::Pick::pick, crate::specs::Image::start_in, crate::specs::Memory::memory_of))]
pub fn memory(image: &[u8], base: GuestAddress) -> Extent
    ensures { result ≡ memory_of image.now base.0 }
{
    let Some(at) = plan::start(image, base) else {
        return Extent::default();
    };
    Extent {
        at,
        size: numbers::read_u64(image, plan::IMAGE_SIZE),
    }
}
