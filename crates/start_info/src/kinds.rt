// The kinds of rows, each a list of the widths of its fields; the places of the fields of the block; reserved fields.
// A list of rows is one list of numbers, as the C function `rekusoyen_start_write` takes it and
// `fields::rows` writes it.
ghost use Rattle.std.specs.Prelude.{◌≡◌, ◌+◌, ◌/◌, min};
ghost use Rattle.fields.specs.Rows.{field_width, rows_numbers};
ghost use Rattle.start_info.specs.Kinds.{row_fields, reserved_is_zero, reserved_are_zero};
ghost use Rattle.start_info.specs.Parts.{count_end};

use fields::{numbers, ranges, rows};
use guest::GuestAddress;

// magic, version, flags, module count; module list, command line, RSDP, memory map; map count, reserved
pub(crate) const BLOCK: [u64; 10] = [4, 4, 4, 4, 8, 8, 8, 8, 4, 4];

// address, size, command line, reserved
pub(crate) const MODULE: [u64; 4] = [8, 8, 8, 8];

// address, size, type, reserved
pub(crate) const RANGE: [u64; 4] = [8, 8, 4, 4];

pub(crate) const MAGIC: u64 = 0x336E_C578;

pub(crate) const VERSION: u64 = 1;

// How many bytes the block, a module and a range of the memory map take.
pub(crate) const BLOCK_SIZE: u64 = 56;

pub(crate) const MODULE_SIZE: u64 = 32;

pub(crate) const RANGE_SIZE: u64 = 24;

pub(crate) const VERSION_AT: u64 = 4;

pub(crate) const MODULE_COUNT_AT: u64 = 12;

pub(crate) const MODULES_AT: u64 = 16;

pub(crate) const RANGES_AT: u64 = 40;

pub(crate) const RANGE_COUNT_AT: u64 = 48;

pub(crate) const RESERVED_AT: u64 = 52;

// How many numbers the block has.
pub(crate) const BLOCK_FIELDS: usize = 10;

// How many numbers a row of either list has.
pub(crate) const FIELDS: usize = 4;

// A list has fewer rows than this.
pub(crate) const COUNT_END: u64 = 0x1_0000_0000;

// How many rows a list of so many numbers has; more than 2^32 count as 2^32.
pub(crate) fn counted(numbers: usize) -> u64
    ensures { result ≡ min (numbers / row_fields) count_end }
{
    ((numbers / FIELDS) as u64).min(COUNT_END)
}

// Is the i-th number of a list 0, if its field is reserved?
#[tactic(auto, unfolding(answers::specs::Pick::pick, crate::specs::Kinds::reserved_is_zero))]
fn is_zero(i: usize, v: u64) -> bool
    ensures { result ≡ reserved_is_zero i v }
{
    i % FIELDS != 3 || v == 0
}

// Are the reserved numbers of a list 0?
pub(crate) fn are_zero(list: &[u64]) -> bool
    ensures { result ≡ reserved_are_zero list.now }
{
    list.iter().enumerate().all(|(i, v)| is_zero(i, *v))
}

// Are those of n numbers at a guest address 0? Not `all`: a number's place is the sum of the widths before it, which
// the closure would have to carry from turn to turn.
pub(crate) fn are_zero_at(s: &[u8], at: GuestAddress, widths: &[u64], n: u64) -> bool
    ensures { result ≡ reserved_are_zero (rows_numbers (field_width widths.now) n s.now at.0 0) }
{
    let end = s.len() as u64;
    let mut p = at.0;
    for i in 0..n as usize {
        let width = rows::field_width(widths, i);
        if !is_zero(i, numbers::read_le(s, p, width)) {
            return false;
        }
        p = ranges::sum_up_to(end, p, width);
    }
    true
}
