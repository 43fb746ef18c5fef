// The plan of a load: the tests in their order, and what it returns.
ghost use Rattle.std.specs.Prelude.{◌≡◌};
ghost use Rattle.arm64.specs.Image.{start_in};
ghost use Rattle.arm64.specs.Plan.{plan_of};

use answers::Refusal;
use fields::numbers;
use guest::{GuestAddress, KernelLoaderResult, Memory, PvhBootCapability, lent, room};

// The places of the header's fields.
const TEXT_OFFSET: u64 = 8;

pub(crate) const IMAGE_SIZE: u64 = 16;

const FLAGS: u64 = 24;

const MAGIC: u64 = 56;

// Where the file goes: the text offset from the base, if that is a number of 64 bits.
#[tactic(auto, unfolding(answers::specs::Pick::pick, crate::specs::Image::start_in), using(fields::proofs::RangesLaws::sum_within, fields::proofs::RangesLaws::sum_beyond))]
pub(crate) fn start(image: &[u8], base: GuestAddress) -> Option<GuestAddress>
    ensures { result ≡ start_in image.now base.0 }
{
    base.0
        .checked_add(numbers::read_u64(image, TEXT_OFFSET))
        .map(GuestAddress)
}

// What a load into a memory returns.
#[tactic(auto, unfolding(answers::specs::Pick::pick, answers::specs::Tests::asked, guest::specs::Loading::behind_tests, crate::specs::Image::start_in), using(fields::proofs::RangesLaws::sum_within, fields::proofs::RangesLaws::sum_beyond))]
pub(crate) fn plan_load(
    image: &[u8],
    memory: &Memory,
    base: GuestAddress,
) -> Result<KernelLoaderResult, Refusal>
    ensures { result ≡ (plan_of image.now memory.now base.0).answer }
{
    let len = image.len() as u64;
    let size = numbers::read_u64(image, IMAGE_SIZE);
    lent::ask(len, memory)?;
    answers::require(64 <= len, Refusal::ShortImage)?;
    answers::require(
        numbers::read_u32(image, MAGIC) == 0x644D_5241,
        Refusal::BadImageMagic,
    )?;
    answers::require(
        numbers::read_u64(image, FLAGS) % 2 == 0,
        Refusal::BigEndianImage,
    )?;
    answers::require(0 < size, Refusal::NoImageSize)?;
    answers::require(base.0 % 0x20_0000 == 0, Refusal::UnalignedBase)?;
    let load = start(image, base).ok_or(Refusal::ImageStartWraps)?;
    answers::require(room::has_room(memory, load, len), Refusal::NoRoomForImage)?;
    let end = load.0.checked_add(size).ok_or(Refusal::ImageEndWraps)?;
    Ok(KernelLoaderResult {
        kernel_load: load,
        kernel_end: GuestAddress(end),
        pvh_boot_cap: PvhBootCapability::PvhEntryIgnored,
    })
}
