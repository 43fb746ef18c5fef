// A boot by zero page. Flags: 1 an offset is given, 2 the start of high memory, 4 a limit of the line, 8 64-bit entry.
// Parameters that travel together and lists of rows are those of the C functions, and so each export matches on the
// `Result` of its tests: an inner function with `?` would take them all again.
ghost use Rattle.std.specs.Prelude.{◌≡◌, length};
ghost use Rattle.boot.specs.ZeroPage.{answer_of, plan_of};
ghost use Rattle.capi.specs.Loads.{memory_by};
ghost use Rattle.capi.specs.Options.{options_of};
ghost use Rattle.cmdline.specs.Writing.{bare};
ghost use Rattle.guest.specs.Maps.{map_of};
ghost use Rattle.guest.specs.Room.{memory_of};
ghost use Rattle.capi_boot.specs.Calls.{boot_gate, limit_given, PlanCall, BootCall};
ghost use Rattle.capi_boot.specs.ZeroPage.{zero_page_by};

use crate::calls;
use boot::zero_page::ZeroPage;
use capi::{entries, options};
use guest::maps;

fn addresses_by(line: u32, ramdisk: u32, page: u32, flags: u32) -> ZeroPage
    ensures { result ≡ zero_page_by line ramdisk page flags }
{
    ZeroPage {
        line,
        ramdisk,
        page,
        wide: calls::is_wide(flags),
    }
}

// What a boot into guest memory of this size with this map answers, with a ramdisk of so many bytes. `booted` has 7
// numbers: the six of a load, then the entry address.
#[unsafe(no_mangle)]
pub extern "C" fn rekusoyen_raw_boot_zero_page_plan(
    memory_size: u64,
    map: &[u64],
    image: &[u8],
    format: u32,
    flags: u32,
    offset: u64,
    highmem: u64,
    limit: u32,
    text: &[u8],
    init: &[u8],
    ramdisk_len: u64,
    rows: &[u64],
    line: u32,
    ramdisk_at: u32,
    page: u32,
    booted: &mut [u64],
) -> u32
    ensures { PlanCall (boot_gate (length booted.old) format) (answer_of (memory_by memory_size map.now) image.now
        (options_of format flags offset highmem) (limit_given flags limit) (bare text.now init.now) (zero_page_by line
        ramdisk_at page flags) ramdisk_len rows.now) booted.old result booted.new }
{
    match options::of_call(booted.len() == calls::SIZE, format, flags, offset, highmem) {
        Err(refusal) => u32::from(refusal),
        Ok(options) => {
            let memory = entries::memory_by(memory_size, map);
            let limit = calls::limit_by(flags, limit);
            let to = addresses_by(line, ramdisk_at, page, flags);
            let answer = boot::zero_page::plan(
                &memory,
                image,
                options,
                limit,
                text,
                init,
                to,
                ramdisk_len,
                rows,
            );
            calls::put_booted(booted, answer)
        }
    }
}

// Puts kernel, line, ramdisk and page into guest memory: all of them, or nothing. A refusal leaves `booted` as it was.
#[unsafe(no_mangle)]
pub extern "C" fn rekusoyen_raw_boot_zero_page(
    guest: &mut [u8],
    map: &[u64],
    image: &[u8],
    format: u32,
    flags: u32,
    offset: u64,
    highmem: u64,
    limit: u32,
    text: &[u8],
    init: &[u8],
    ramdisk: &[u8],
    rows: &[u64],
    line: u32,
    ramdisk_at: u32,
    page: u32,
    booted: &mut [u64],
) -> u32
    ensures { BootCall (boot_gate (length booted.old) format) (plan_of (memory_of guest.old (map_of map.now))
        image.now (options_of format flags offset highmem) (limit_given flags limit) (bare text.now init.now)
        (zero_page_by line ramdisk_at page flags) ramdisk.now rows.now) guest.old booted.old result guest.new
        booted.new }
{
    match options::of_call(booted.len() == calls::SIZE, format, flags, offset, highmem) {
        Err(refusal) => u32::from(refusal),
        Ok(options) => {
            let ranges = maps::from_numbers(map);
            let limit = calls::limit_by(flags, limit);
            let to = addresses_by(line, ramdisk_at, page, flags);
            let answer = boot::zero_page::load(
                guest, ranges, image, options, limit, text, init, to, ramdisk, rows,
            );
            calls::put_booted(booted, answer)
        }
    }
}
