// What a setup header says to a boot loader, by the Linux x86 boot protocol. The functions of the names `line_limit`
// and `ramdisk_end` in crate `boot` ask these for a bzImage, and have an answer of their own for the other formats.
ghost use Rattle.std.specs.Prelude.{◌≡◌, ◌<◌, max};
ghost use Rattle.fields.specs.Numbers.{le};
ghost use Rattle.bzimage.specs.SetupHeader.{version};
ghost use Rattle.bzimage.specs.Protocol.{Limit, RamdiskEnd, has64, aligned_up, runtime_start, runtime_memory};

use crate::kernel;
use fields::numbers;
use guest::{Extent, GuestAddress};

// The offsets of the fields in the image.
const VERSION: u64 = 0x206;

const INITRD_ADDR_MAX: u64 = 0x22C;

const KERNEL_ALIGNMENT: u64 = 0x230;

const RELOCATABLE_KERNEL: u64 = 0x234;

const XLOADFLAGS: u64 = 0x236;

const CMDLINE_SIZE: u64 = 0x238;

const PREF_ADDRESS: u64 = 0x258;

const INIT_SIZE: u64 = 0x260;

// The version of the protocol, by which a field is there or not.
fn version(image: &[u8]) -> u64
    ensures { result ≡ le 2 image.now version }
{
    numbers::read_u16(image, VERSION)
}

// The three functions below differ in the version, the field and what holds before it: one over all three is no
// plainer.

// The longest command line that the kernel takes, without its zero: 255 before protocol 2.06.
#[tactic(auto, unfolding(answers::specs::Pick::pick, crate::specs::Protocol::line_limit))]
pub fn line_limit(image: &[u8]) -> u64
    ensures { Limit image.now result }
{
    if version(image) < 0x206 {
        return 255;
    }
    numbers::read_u32(image, CMDLINE_SIZE)
}

// The first address past the highest that a ramdisk may use: 0x38000000 before protocol 2.03.
#[tactic(auto, unfolding(answers::specs::Pick::pick, crate::specs::Protocol::ramdisk_end))]
pub fn ramdisk_end(image: &[u8]) -> u64
    ensures { RamdiskEnd image.now result }
{
    if version(image) < 0x203 {
        return 0x3800_0000;
    }
    numbers::read_u32(image, INITRD_ADDR_MAX) + 1
}

// Has the kernel a 64-bit entry, 0x200 after its start? Protocol 2.12, bit 0 of xloadflags.
#[tactic(auto, unfolding(crate::specs::Protocol::has64))]
pub fn has_64bit_entry(image: &[u8]) -> bool
    ensures { result ≡ has64 image.now }
{
    version(image) >= 0x20C && numbers::read_u16(image, XLOADFLAGS) % 2 == 1
}

// The least multiple of a step that is not below v, at most 2^64 - 1.
#[tactic(auto, unfolding(answers::specs::Pick::pick, crate::specs::Protocol::aligned_up))]
fn aligned_up(step: u64, v: u64) -> u64
    requires { 0 < step }
    ensures { result ≡ aligned_up step v }
{
    v.checked_next_multiple_of(step).unwrap_or(u64::MAX)
}

// Where a kernel that is loaded at an address runs.
#[tactic(auto, unfolding(answers::specs::Pick::pick, crate::specs::Protocol::runtime_start))]
fn runtime_start(image: &[u8], load: GuestAddress) -> GuestAddress
    ensures { result ≡ record { 0 = runtime_start image.now load.0 } }
{
    let preferred = numbers::read_u64(image, PREF_ADDRESS);
    if numbers::byte_at(image, RELOCATABLE_KERNEL, 0) == 0 {
        return GuestAddress(preferred);
    }
    let step = numbers::read_u32(image, KERNEL_ALIGNMENT).max(1);
    GuestAddress(aligned_up(step, load.0.max(preferred)))
}

// The memory that the kernel needs while it starts: none is known before protocol 2.10.
#[tactic(auto, unfolding(answers::specs::Pick::pick, crate::specs::Protocol::runtime_memory))]
pub fn runtime_memory(image: &[u8], kernel_offset: Option<GuestAddress>) -> Extent
    ensures { result ≡ runtime_memory image.now kernel_offset }
{
    if version(image) < 0x20A {
        return Extent::default();
    }
    Extent {
        at: runtime_start(image, kernel::load_address(image, kernel_offset)),
        size: numbers::read_u32(image, INIT_SIZE),
    }
}
