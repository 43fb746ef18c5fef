// The PVH start block, written into guest memory with its lists, checked there, and read. Modules and ranges are lists
// of numbers, as C passes them; `rekusoyen_start_modules` and `rekusoyen_start_ranges` are two C functions.
ghost use Rattle.std.specs.Prelude.{◌≡◌, length};
ghost use Rattle.fields.specs.Rows.{field_width, rows_numbers};
ghost use Rattle.guest.specs.Maps.{map_of};
ghost use Rattle.start_info.specs.Kinds.{module_widths, range_widths};
ghost use Rattle.start_info.specs.Answers.{gate_number};
ghost use Rattle.start_info.specs.Checking.{check_of};
ghost use Rattle.capi_pages.specs.Starts.{start_of, StartWrites, StartReads};

use capi::results;
use guest::{GuestAddress, maps};
use start_info::Start;

// Writes the start block to an address, and its lists, four numbers a row, to theirs: modules (address, size, command
// line, reserved) and the memory map (address, size, type, reserved). A refusal leaves guest memory as it was.
#[unsafe(no_mangle)]
pub extern "C" fn rekusoyen_start_write(
    guest: &mut [u8],
    map: &[u64],
    block: u64,
    modules_at: u64,
    ranges_at: u64,
    flags: u32,
    command_line: u64,
    rsdp: u64,
    modules: &[u64],
    ranges: &[u64],
) -> u32
    ensures { StartWrites (start_of block modules_at ranges_at flags command_line rsdp) modules.now ranges.now (map_of
        map.now) guest.old result guest.new }
{
    let start = Start {
        block: GuestAddress(block),
        modules: GuestAddress(modules_at),
        ranges: GuestAddress(ranges_at),
        flags,
        command_line: GuestAddress(command_line),
        rsdp: GuestAddress(rsdp),
    };
    results::check_number(start_info::write(guest, maps::from_numbers(map), start, modules, ranges))
}

// Checks the start block at an address, no matter who wrote it: 0 if it is accepted, else the number of what is wrong
// first.
#[unsafe(no_mangle)]
pub extern "C" fn rekusoyen_start_check(guest: &[u8], map: &[u64], block: u64) -> u32
    ensures { result ≡ gate_number (check_of (map_of map.now) guest.now block) }
{
    results::check_number(start_info::check(guest, maps::from_numbers(map), GuestAddress(block)))
}

// Reads the ten numbers of a block at an address into a list of ten; a byte past the end of guest memory is read as 0.
#[unsafe(no_mangle)]
pub extern "C" fn rekusoyen_raw_start_block(guest: &[u8], block: u64, numbers: &mut [u64]) -> u32
    ensures { StartReads guest.now block numbers.old result numbers.new }
{
    results::check_number(start_info::read_block(numbers, guest, GuestAddress(block)))
}

// Reads rows of modules at an address, four numbers each, as many numbers as the list takes; past the end they are 0.
#[unsafe(no_mangle)]
pub extern "C" fn rekusoyen_start_modules(guest: &[u8], modules: u64, numbers: &mut [u64])
    ensures { numbers.new ≡ rows_numbers (field_width module_widths) (length numbers.old) guest.now modules 0 }
{
    start_info::read_modules(numbers, guest, GuestAddress(modules));
}

// Reads rows of a memory map at an address, in the same way.
#[unsafe(no_mangle)]
pub extern "C" fn rekusoyen_start_ranges(guest: &[u8], ranges: u64, numbers: &mut [u64])
    ensures { numbers.new ≡ rows_numbers (field_width range_widths) (length numbers.old) guest.now ranges 0 }
{
    start_info::read_ranges(numbers, guest, GuestAddress(ranges));
}
