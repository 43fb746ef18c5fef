// The checks that every boot has: the length of its line, and its pieces by their ranges. `line`, `ramdisk` and
// `boot_data` stay three parameters: no fact joins them, and each refusal is of one or of a pair of them.
ghost use Rattle.std.specs.Prelude.{◌≡◌, ◌<◌, ◌≤◌};
ghost use Rattle.answers.specs.Tests.{pass, asked_all};
ghost use Rattle.cmdline.specs.Text.{size_of};
ghost use Rattle.boot.specs.Checks.{LimitIs, limit_of, LineChecked, room_tests, apart_tests, row_tests, pieces_tests};
ghost use Rattle.boot.specs.Plan.{extent};
ghost use Rattle.boot.specs.Rows.{width_in, numbers_in};

use crate::{MapRows, kernel, rows};
use answers::Refusal;
use bzimage::protocol;
use cmdline::sizes;
use guest::{Extent, GuestAddress, Memory, room};
use loads::{Format, Options};

// How long a line Linux takes, its zero not counted, if neither image nor caller says it.
const LINUX_LIMIT: u32 = 2047;

// How long a line the kernel takes, its zero not counted: a bzImage says it itself, of others the caller may.
pub fn line_limit(image: &[u8], options: Options, limit: Option<u32>) -> u64
    ensures { LimitIs image.now options limit result }
{
    match options.format {
        Format::BzImage => protocol::line_limit(image),
        Format::Elf | Format::Arm64 => u64::from(limit.unwrap_or(LINUX_LIMIT)),
    }
}

// Is the line no longer than the kernel takes?
pub fn check_line(
    image: &[u8],
    options: Options,
    limit: Option<u32>,
    boot_len: usize,
    init_len: usize,
) -> Result<(), Refusal>
    ensures { LineChecked (limit_of image.now options limit) (size_of boot_len init_len) result }
{
    let most = line_limit(image, options, limit) as usize + 1;
    answers::require(sizes::fits(most, boot_len, init_len), Refusal::LineTooLong)
}

// The size of a line with its zero.
pub(crate) fn line_size(boot_len: usize, init_len: usize) -> u64
    requires { size_of boot_len init_len ≤ 4294967296 }
    ensures { result ≡ size_of boot_len init_len }
{
    sizes::size(boot_len, init_len) as u64
}

// Room for each piece.
fn check_room(
    memory: &Memory,
    image: &[u8],
    options: Options,
    ramdisk: Extent,
    boot_data: Extent,
) -> Result<(), Refusal>
    ensures { result ≡ asked_all pass (room_tests memory.now image.now options ramdisk boot_data) }
{
    answers::require(
        kernel::has_room(memory, image, options),
        Refusal::KernelOutside,
    )?;
    answers::require(
        room::room_for(memory, ramdisk.at, ramdisk.size),
        Refusal::RamdiskOutside,
    )?;
    answers::require(
        room::room_for(memory, boot_data.at, boot_data.size),
        Refusal::BootDataOutside,
    )
}

// No two pieces share a byte.
fn check_apart(
    image: &[u8],
    options: Options,
    line: Extent,
    ramdisk: Extent,
    boot_data: Extent,
) -> Result<(), Refusal>
    ensures { result ≡ asked_all pass (apart_tests image.now options line ramdisk boot_data) }
{
    answers::require(
        kernel::is_apart(image, options, line),
        Refusal::KernelMeetsLine,
    )?;
    answers::require(
        kernel::is_apart(image, options, ramdisk),
        Refusal::KernelMeetsRamdisk,
    )?;
    answers::require(
        kernel::is_apart(image, options, boot_data),
        Refusal::KernelMeetsBootData,
    )?;
    answers::require(kernel::are_apart(line, ramdisk), Refusal::LineMeetsRamdisk)?;
    answers::require(
        kernel::are_apart(line, boot_data),
        Refusal::LineMeetsBootData,
    )?;
    answers::require(
        kernel::are_apart(ramdisk, boot_data),
        Refusal::RamdiskMeetsBootData,
    )
}

// Kernel, line and ramdisk lie in rows of type 1.
fn check_rows(
    rows: Option<MapRows>,
    image: &[u8],
    options: Options,
    line: Extent,
    ramdisk: Extent,
) -> Result<(), Refusal>
    ensures { result ≡ asked_all pass
        (row_tests (width_in rows.entry) (numbers_in rows.entry) image.now options line ramdisk) }
{
    answers::require(
        kernel::is_listed(rows, image, options),
        Refusal::KernelNotInRows,
    )?;
    answers::require(rows::is_listed(rows, line), Refusal::LineNotInRows)?;
    answers::require(rows::is_listed(rows, ramdisk), Refusal::RamdiskNotInRows)
}

// All checks of the pieces by their ranges.
pub(crate) fn check(
    memory: &Memory,
    image: &[u8],
    options: Options,
    rows: Option<MapRows>,
    line: Extent,
    ramdisk: Extent,
    boot_data: Extent,
) -> Result<(), Refusal>
    ensures { result ≡ asked_all pass
        (pieces_tests memory.now image.now options (width_in rows.entry) (numbers_in rows.entry)
        line ramdisk boot_data) }
{
    check_room(memory, image, options, ramdisk, boot_data)?;
    check_apart(image, options, line, ramdisk, boot_data)?;
    check_rows(rows, image, options, line, ramdisk)
}

// n bytes at an address.
pub(crate) fn range(at: u64, n: u64) -> Extent
    ensures { result ≡ extent «at» n }
{
    Extent {
        at: GuestAddress(at),
        size: n,
    }
}
