// Loads of every format. A format gives its plan and its parts by number; what is done with them is said once, here:
// the whole load, the load in steps, and the parts for callers that copy by themselves.
#![tactic(auto, unfolding(answers::specs::Pick::pick, answers::specs::Tests::asked, crate::specs::Formats::answer_by, crate::specs::Formats::count_by, crate::specs::Formats::part_by, crate::specs::Formats::memory_by, crate::specs::Formats::only_at, crate::specs::Layout::layout_by, crate::specs::Layout::part_in, crate::specs::Calls::moved_to, crate::specs::Calls::begun_with, crate::specs::Calls::is_fresh, crate::specs::Calls::as_first, crate::specs::Steps::reply_after, crate::specs::Steps::first_step, crate::specs::Steps::step_plan, crate::specs::Kinds::kind_of))]

ghost use Rattle.loads.specs.Formats.{LoadSays};

use answers::Refusal;
use guest::{GuestAddress, KernelLoaderResult, Map, Memory};

pub mod calls;
mod copying;
pub mod formats;
pub mod steps;

// The formats of kernel images.
#[derive(Clone, Copy, PartialEq, Eq)]
pub enum Format {
    Elf,
    BzImage,
    Arm64,
}

// What a load is made with. The base of an arm64 Image is its offset, 0 if none is given.
#[derive(Clone, Copy)]
pub struct Options {
    pub format: Format,
    pub kernel_offset: Option<GuestAddress>,
    pub highmem_start: Option<GuestAddress>,
}

// How far a load in steps is: not started, copying, or answered.
#[derive(Clone, Copy, PartialEq, Eq)]
pub enum Stage {
    Fresh,
    Copying,
    Done,
}

// A load between two steps: its stage, the first step's image length and memory, and the next part with the bytes of
// it that are done.
#[derive(Clone, Copy)]
pub struct Progress {
    pub stage: Stage,
    pub image_len: u64,
    pub memory: Memory,
    pub at: u64,
    pub done: u64,
}

// Loads an image into guest memory, which the map's ranges are.
pub fn load(
    guest: &mut [u8],
    map: Map,
    image: &[u8],
    options: Options,
) -> Result<KernelLoaderResult, Refusal>
    ensures { LoadSays image.now options map guest.old result guest.new }
{
    let kernel = formats::plan(&Memory::of(guest, map), image, options)?;
    copying::copy_all(guest, image, options);
    Ok(kernel)
}
