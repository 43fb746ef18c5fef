// The tests of a block that is to be written with its lists, and the writing. The lists are of numbers, as the C
// function `rekusoyen_start_write` takes them.
ghost use Rattle.std.specs.Prelude.{◌≡◌};
ghost use Rattle.answers.specs.Tests.{pass, asked_all};
ghost use Rattle.guest.specs.Stream.{pour};
ghost use Rattle.start_info.specs.Writing.{list_tests, part_tests, tests, start_plan};

use crate::{Start, kinds};
use answers::Refusal;
use fields::{ranges as addresses, rows};
use guest::{Memory, lent, room};

// A list of rows of a kind.
fn check_list(widths: &[u64], list: &[u64]) -> Result<(), Refusal>
    ensures { result ≡ asked_all pass (list_tests widths.now list.now) }
{
    answers::require(rows::are_rows(widths, list), Refusal::BadList)?;
    answers::require(kinds::are_zero(list), Refusal::BadList)
}

// The parts, whose sizes are products of 64 bits. Each is compared with every other one.
#[tactic(auto, unfolding(answers::specs::Pick::pick, answers::specs::Tests::asked, fields::specs::Rows::row_length), using(crate::proofs::PartsLaws::below_clipped))]
fn check_parts(
    memory: &Memory,
    start: Start,
    modules: &[u64],
    ranges: &[u64],
) -> Result<(), Refusal>
    ensures { result ≡ asked_all pass (part_tests memory.now start modules.now ranges.now) }
{
    let m = kinds::counted(modules.len());
    let n = kinds::counted(ranges.len());
    answers::require(m < kinds::COUNT_END, Refusal::BadPart)?;
    answers::require(n < kinds::COUNT_END, Refusal::BadPart)?;
    let m = m * kinds::MODULE_SIZE;
    let n = n * kinds::RANGE_SIZE;
    answers::require(
        room::room_for(memory, start.block, kinds::BLOCK_SIZE),
        Refusal::BadPart,
    )?;
    answers::require(room::room_for(memory, start.modules, m), Refusal::BadPart)?;
    answers::require(room::room_for(memory, start.ranges, n), Refusal::BadPart)?;
    answers::require(
        addresses::are_apart(start.block.0, kinds::BLOCK_SIZE, start.modules.0, m),
        Refusal::BadPart,
    )?;
    answers::require(
        addresses::are_apart(start.block.0, kinds::BLOCK_SIZE, start.ranges.0, n),
        Refusal::BadPart,
    )?;
    answers::require(
        addresses::are_apart(start.modules.0, m, start.ranges.0, n),
        Refusal::BadPart,
    )
}

// All tests of a block that is to be written.
pub(crate) fn check(
    memory: &Memory,
    start: Start,
    modules: &[u64],
    ranges: &[u64],
) -> Result<(), Refusal>
    ensures { result ≡ asked_all pass (tests memory.now start modules.now ranges.now) }
{
    lent::ask_memory(memory)?;
    check_list(&kinds::MODULE, modules)?;
    check_list(&kinds::RANGE, ranges)?;
    check_parts(memory, start, modules, ranges)
}

// Writes the block, the modules and the memory map, as far as guest memory goes.
#[tactic(auto, using(crate::proofs::WritingLaws::all_put))]
pub(crate) fn put(guest: &mut [u8], start: Start, modules: &[u64], ranges: &[u64])
    ensures { guest.new ≡ pour (start_plan start modules.now ranges.now).stream guest.old }
{
    let block: [u64; 10] = [
        kinds::MAGIC,
        kinds::VERSION,
        u64::from(start.flags),
        (modules.len() / kinds::FIELDS) as u64,
        start.modules.0,
        start.command_line.0,
        start.rsdp.0,
        start.ranges.0,
        (ranges.len() / kinds::FIELDS) as u64,
        0,
    ];
    rows::put_rows(guest, start.block.0, &kinds::BLOCK, &block);
    rows::put_rows(guest, start.modules.0, &kinds::MODULE, modules);
    rows::put_rows(guest, start.ranges.0, &kinds::RANGE, ranges);
}
