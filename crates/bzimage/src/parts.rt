// The plan of a load and its one part: what the load returns, and which image bytes go where. `plan` and `part` are
// named as in the other formats, and their bodies follow the Linux x86 boot protocol alone.
ghost use Rattle.std.specs.Prelude.{◌≡◌};
ghost use Rattle.bzimage.specs.Parts.{part_of};
ghost use Rattle.bzimage.specs.Plan.{plan_of};

use crate::{kernel, plan};
use answers::Refusal;
use guest::{GuestAddress, ImagePlace, KernelLoaderResult, Memory, Part};

// What a load into this memory returns. The four parameters are those of linux-loader's `load`; a struct of the two
// addresses would be filled in `loads` and read here, and no plainer.
pub fn plan(
    memory: &Memory,
    image: &[u8],
    kernel_offset: Option<GuestAddress>,
    highmem_start: Option<GuestAddress>,
) -> Result<KernelLoaderResult, Refusal>
    ensures { result ≡ (plan_of image.now memory.now kernel_offset highmem_start).answer }
{
    plan::plan_load(image, memory, kernel_offset, highmem_start)
}

// The part of a load: the kernel. Whether it has room is tested by the plan.
pub fn part(image: &[u8], kernel_offset: Option<GuestAddress>) -> Part
    ensures { result ≡ part_of image.now kernel_offset }
{
    Part {
        address: kernel::load_address(image, kernel_offset),
        place: ImagePlace(kernel::setup_size(image)),
        size: kernel::kernel_size(image),
    }
}
