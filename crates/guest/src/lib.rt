// Guest memory, as a slice with a map: its addresses, its size, its ranges, its room, and what is written into it;
// and what a load answers.
#![tactic(auto, unfolding(answers::specs::Pick::pick, answers::specs::Tests::asked))]

ghost use Rattle.std.specs.Prelude.{◌≡◌, min};
ghost use Rattle.guest.specs.Maps.{most_ranges, range_at};
ghost use Rattle.guest.specs.Room.{memory_of};

pub mod addresses;
pub mod copying;
pub mod lent;
pub mod maps;
pub mod parts;
pub mod room;
pub mod sizes;

// A guest address and a place of the image are different kinds of number: neither can be passed for the other.

// An address of guest memory.
#[derive(Clone, Copy, Default, PartialEq, Eq)]
pub struct GuestAddress(pub u64);

// A place of the image.
#[derive(Clone, Copy, Default)]
pub struct ImagePlace(pub u64);

// A memory map: the first `count` of up to 16 ranges, each its start and its size. Two arrays in the order of the C
// state of a load in steps, 16 starts and then 16 sizes, which is stored from them as they are (`capi::progress`).
#[derive(Clone, Copy)]
pub struct Map {
    pub count: u64,
    pub starts: [u64; 16],
    pub sizes: [u64; 16],
}

impl Map {
    // How many ranges are read: a count above 16 counts as 16.
    pub fn len(&self) -> usize
        ensures { result ≡ min self.now.count most_ranges }
    {
        self.count.min(maps::MOST as u64) as usize
    }

    // The range at an index; past the sixteenth it is empty, at 0.
    pub fn range(&self, i: usize) -> Extent
        ensures { result ≡ range_at self.now i }
    {
        Extent {
            at: GuestAddress(maps::number_at(&self.starts, i)),
            size: maps::number_at(&self.sizes, i),
        }
    }
}

// Guest memory without its bytes: the length of its slice, and the ranges of the slice that are memory.
#[derive(Clone, Copy)]
pub struct Memory {
    pub size: u64,
    pub map: Map,
}

impl Memory {
    // The memory that a slice is with a map.
    pub fn of(guest: &[u8], map: Map) -> Memory
        ensures { result ≡ memory_of guest.now map }
    {
        Memory {
            size: guest.len() as u64,
            map,
        }
    }
}

// A range of guest memory. Its default has no bytes, and is at 0.
#[derive(Clone, Copy, Default, PartialEq, Eq)]
pub struct Extent {
    pub at: GuestAddress,
    pub size: u64,
}

// A part of the image that goes to one address. Its default has no bytes.
#[derive(Clone, Copy, Default)]
pub struct Part {
    pub address: GuestAddress,
    pub place: ImagePlace,
    pub size: u64,
}

// What a portion of a load did: the part at which it ended and how many of its bytes are done, the bytes copied, and
// whether nothing is left. A flag and no `Option`: the other three are set in either case.
#[derive(Clone, Copy)]
pub struct Portion {
    pub at: u64,
    pub done: u64,
    pub copied: u64,
    pub all: bool,
}

// The entry point for the PVH boot protocol, and the descriptor of the note that gives it: its place in the image,
// and its size as the note header has it.
#[derive(Clone, Copy)]
pub struct PvhNote {
    pub entry: GuestAddress,
    pub place: ImagePlace,
    pub size: u64,
}

// Is there an entry point for the PVH boot protocol? Only an ELF image has one.
#[derive(Clone, Copy)]
pub enum PvhBootCapability {
    PvhEntryPresent(PvhNote),
    PvhEntryNotPresent,
    PvhEntryIgnored,
}

// Where a kernel was loaded: its load address, the end of its memory, and its PVH entry.
#[derive(Clone, Copy)]
pub struct KernelLoaderResult {
    pub kernel_load: GuestAddress,
    pub kernel_end: GuestAddress,
    pub pvh_boot_cap: PvhBootCapability,
}
