// The PVH start information: Xen's start block with its list of modules and its memory map, written into guest memory
// and checked there. Modules and ranges are lists of numbers, as the C function `rekusoyen_start_write` takes them.
// `plan`, `write` and `check` are named as in other crates, and follow Xen's start_info.h alone.
#![tactic(auto, unfolding(answers::specs::Pick::pick, answers::specs::Tests::asked))]

ghost use Rattle.std.specs.Prelude.{◌≡◌, length};
ghost use Rattle.fields.specs.Rows.{field_width, rows_numbers};
ghost use Rattle.start_info.specs.Kinds.{module_widths, range_widths};
ghost use Rattle.answers.specs.Tests.{pass, asked_all};
ghost use Rattle.start_info.specs.Writing.{tests, start_size, Writes};
ghost use Rattle.start_info.specs.Checking.{check_of, BlockReads};

use answers::Refusal;
use fields::rows;
use guest::{GuestAddress, Map, Memory};

mod checking;
mod kinds;
mod writing;

// The addresses of block, modules and memory map, and what else the block says: flags, the addresses of command line
// and RSDP.
#[derive(Clone, Copy)]
pub struct Start {
    pub block: GuestAddress,
    pub modules: GuestAddress,
    pub ranges: GuestAddress,
    pub flags: u32,
    pub command_line: GuestAddress,
    pub rsdp: GuestAddress,
}

// The checks of a block with its lists: if they pass, `write` writes them.
pub fn plan(memory: &Memory, start: Start, modules: &[u64], ranges: &[u64]) -> Result<(), Refusal>
    ensures { result ≡ asked_all pass (tests memory.now start modules.now ranges.now) }
{
    writing::check(memory, start, modules, ranges)
}

// How many bytes the block and its lists take; a list of more than 2^32 rows, which is refused, counts as one of 2^32.
#[tactic(auto, unfolding(fields::specs::Rows::row_length))]
pub fn size(modules: &[u64], ranges: &[u64]) -> u64
    ensures { result ≡ start_size modules.now ranges.now }
{
    let m = kinds::counted(modules.len());
    let n = kinds::counted(ranges.len());
    kinds::BLOCK_SIZE + m * kinds::MODULE_SIZE + n * kinds::RANGE_SIZE
}

// Writes the block and its lists. A row is four numbers, the last of which is reserved and 0: a module's are address,
// size and command line, those of a range of the memory map address, size and type. If it refuses, guest memory is as
// it was.
#[tactic(auto, unfolding(guest::specs::Loading::behind_tests, guest::specs::Stream::pour))]
pub fn write(
    guest: &mut [u8],
    map: Map,
    start: Start,
    modules: &[u64],
    ranges: &[u64],
) -> Result<(), Refusal>
    ensures { Writes start modules.now ranges.now map guest.old result guest.new }
{
    let memory = Memory::of(guest, map);
    writing::check(&memory, start, modules, ranges)?;
    writing::put(guest, start, modules, ranges);
    Ok(())
}

// Checks the block at an address, no matter who wrote it: a refusal says what is wrong first.
pub fn check(guest: &[u8], map: Map, block: GuestAddress) -> Result<(), Refusal>
    ensures { result ≡ check_of map guest.now block.0 }
{
    let memory = Memory::of(guest, map);
    checking::check(guest, &memory, block)
}

// Reads the ten numbers of a block into a list of ten; a byte past the end is read as 0. A list of another length is
// refused and left as it was.
pub fn read_block(numbers: &mut [u64], guest: &[u8], block: GuestAddress) -> Result<(), Refusal>
    ensures { BlockReads guest.now block.0 numbers.old result numbers.new }
{
    answers::require(numbers.len() == kinds::BLOCK_FIELDS, Refusal::NoRoom)?;
    rows::read_rows(numbers, guest, block.0, &kinds::BLOCK);
    Ok(())
}

// Reads the numbers of modules at an address, as many as the list takes; a byte past the end is read as 0.
pub fn read_modules(numbers: &mut [u64], guest: &[u8], modules: GuestAddress)
    ensures { numbers.new ≡ rows_numbers (field_width module_widths) (length numbers.old) guest.now modules.0 0 }
{
    rows::read_rows(numbers, guest, modules.0, &kinds::MODULE);
}

// And those of the memory map: a function of its own, as the C function `rekusoyen_start_ranges` is.
pub fn read_ranges(numbers: &mut [u64], guest: &[u8], ranges: GuestAddress)
    ensures { numbers.new ≡ rows_numbers (field_width range_widths) (length numbers.old) guest.now ranges.0 0 }
{
    rows::read_rows(numbers, guest, ranges.0, &kinds::RANGE);
}
