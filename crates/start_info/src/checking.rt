// The tests of a block in guest memory, no matter who wrote it.
ghost use Rattle.std.specs.Prelude.{◌≡◌, [], ◌∷◌, ◌+◌, min};
ghost use Rattle.answers.specs.Tests.{pass, asked_all};
ghost use Rattle.answers.specs.declared.Refusal.TheVariants.{BadPart, BadStartReserved};
ghost use Rattle.fields.specs.Numbers.{ReadAs};
ghost use Rattle.fields.specs.Rows.{field_width, rows_numbers};
ghost use Rattle.guest.specs.Room.{room_for};
ghost use Rattle.start_info.specs.Kinds.{reserved_are_zero};
ghost use Rattle.start_info.specs.Checking.{block_tests, check_tests};

use crate::kinds;
use answers::Refusal;
use fields::{numbers, ranges};
use guest::{GuestAddress, Memory, lent, room};

// A field of the block, of `width` bytes at an offset.
#[tactic(auto, using(crate::proofs::CheckingLaws::field_read))]
fn field(guest: &[u8], block: GuestAddress, at: u64, width: u64) -> u64
    ensures { ReadAs (min width 8) guest.now (block.0 + at) result }
{
    let place = ranges::sum_up_to(guest.len() as u64, block.0, at);
    numbers::read_le(guest, place, width)
}

// A list of `fields` numbers in `size` bytes: it lies in guest memory, and its reserved numbers are 0.
fn check_list(
    guest: &[u8],
    memory: &Memory,
    widths: &[u64],
    address: GuestAddress,
    size: u64,
    fields: u64,
) -> Result<(), Refusal>
    ensures { result ≡ asked_all pass ((room_for memory.now address.0 size, BadPart) ∷ (
      reserved_are_zero
          (rows_numbers (field_width widths.now) fields guest.now address.0 0),
      BadStartReserved,
    ) ∷ []) }
{
    answers::require(room::room_for(memory, address, size), Refusal::BadPart)?;
    answers::require(
        kinds::are_zero_at(guest, address, widths, fields),
        Refusal::BadStartReserved,
    )
}

// The block itself: it lies in guest memory; magic, version and reserved field.
fn check_block(guest: &[u8], memory: &Memory, block: GuestAddress) -> Result<(), Refusal>
    ensures { result ≡ asked_all pass (block_tests memory.now guest.now block.0) }
{
    answers::require(
        room::room_for(memory, block, kinds::BLOCK_SIZE),
        Refusal::BadPart,
    )?;
    let magic = numbers::read_u32(guest, block.0);
    answers::require(magic == kinds::MAGIC, Refusal::BadStartMagic)?;
    let version = field(guest, block, kinds::VERSION_AT, 4);
    answers::require(version == kinds::VERSION, Refusal::BadStartVersion)?;
    let reserved = field(guest, block, kinds::RESERVED_AT, 4);
    answers::require(reserved == 0, Refusal::BadStartReserved)
}

// The block and its lists, in guest memory that is tested first.
#[tactic(auto, unfolding(answers::specs::Pick::pick, answers::specs::Tests::asked, fields::specs::Rows::row_length))]
pub(crate) fn check(guest: &[u8], memory: &Memory, block: GuestAddress) -> Result<(), Refusal>
    ensures { result ≡ asked_all pass (check_tests memory.now guest.now block.0) }
{
    lent::ask_memory(memory)?;
    check_block(guest, memory, block)?;
    let modules = GuestAddress(field(guest, block, kinds::MODULES_AT, 8));
    let m = field(guest, block, kinds::MODULE_COUNT_AT, 4);
    check_list(
        guest,
        memory,
        &kinds::MODULE,
        modules,
        m * kinds::MODULE_SIZE,
        m * 4,
    )?;
    let ranges = GuestAddress(field(guest, block, kinds::RANGES_AT, 8));
    let n = field(guest, block, kinds::RANGE_COUNT_AT, 4);
    check_list(
        guest,
        memory,
        &kinds::RANGE,
        ranges,
        n * kinds::RANGE_SIZE,
        n * 4,
    )
}
