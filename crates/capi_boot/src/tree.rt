// A boot with a device tree. Flags: 1 an offset is given, 2 the start of high memory, 4 a limit of the line.
// Parameters that travel together and lists of rows are those of the C functions, and so each export matches on the
// `Result` of its tests: an inner function with `?` would take them all again.
ghost use Rattle.std.specs.Prelude.{◌≡◌, length};
ghost use Rattle.boot.specs.Tree.{answer_of, plan_of};
ghost use Rattle.capi.specs.Loads.{memory_by};
ghost use Rattle.capi.specs.Options.{options_of};
ghost use Rattle.guest.specs.Maps.{map_of};
ghost use Rattle.guest.specs.Room.{memory_of};
ghost use Rattle.capi_boot.specs.Calls.{boot_gate, limit_given, PlanCall, BootCall};
ghost use Rattle.capi_boot.specs.Tree.{tree_by};

use crate::calls;
use boot::tree::Tree;
use capi::{entries, options};
use guest::{GuestAddress, maps};

fn addresses_by(line: u64, ramdisk: u64, at: u64) -> Tree
    ensures { result ≡ tree_by line ramdisk «at» }
{
    Tree {
        tree: GuestAddress(at),
        ramdisk: GuestAddress(ramdisk),
        line,
    }
}

// What a boot into guest memory of this size with this map answers, with a ramdisk of so many bytes. `booted` has 7
// numbers: the six of a load, then the entry address.
#[unsafe(no_mangle)]
pub extern "C" fn rekusoyen_raw_boot_tree_plan(
    memory_size: u64,
    map: &[u64],
    image: &[u8],
    format: u32,
    flags: u32,
    offset: u64,
    highmem: u64,
    limit: u32,
    text: &[u8],
    ramdisk_len: u64,
    tree: &[u8],
    line_offset: u64,
    ramdisk_at: u64,
    tree_at: u64,
    booted: &mut [u64],
) -> u32
    ensures { PlanCall (boot_gate (length booted.old) format) (answer_of (memory_by memory_size map.now) image.now
        (options_of format flags offset highmem) (limit_given flags limit) text.now (tree_by line_offset ramdisk_at
        tree_at) ramdisk_len tree.now) booted.old result booted.new }
{
    match options::of_call(booted.len() == calls::SIZE, format, flags, offset, highmem) {
        Err(refusal) => u32::from(refusal),
        Ok(options) => {
            let memory = entries::memory_by(memory_size, map);
            let limit = calls::limit_by(flags, limit);
            let to = addresses_by(line_offset, ramdisk_at, tree_at);
            let answer = boot::tree::plan(
                &memory,
                image,
                options,
                limit,
                text,
                to,
                ramdisk_len,
                tree,
            );
            calls::put_booted(booted, answer)
        }
    }
}

// Puts kernel, ramdisk and tree into guest memory: all of them, or nothing. A refusal leaves `booted` as it was.
#[unsafe(no_mangle)]
pub extern "C" fn rekusoyen_raw_boot_tree(
    guest: &mut [u8],
    map: &[u64],
    image: &[u8],
    format: u32,
    flags: u32,
    offset: u64,
    highmem: u64,
    limit: u32,
    text: &[u8],
    ramdisk: &[u8],
    tree: &[u8],
    line_offset: u64,
    ramdisk_at: u64,
    tree_at: u64,
    booted: &mut [u64],
) -> u32
    ensures { BootCall (boot_gate (length booted.old) format) (plan_of (memory_of guest.old (map_of map.now))
        image.now (options_of format flags offset highmem) (limit_given flags limit) text.now (tree_by line_offset
        ramdisk_at tree_at) ramdisk.now tree.now) guest.old booted.old result guest.new booted.new }
{
    match options::of_call(booted.len() == calls::SIZE, format, flags, offset, highmem) {
        Err(refusal) => u32::from(refusal),
        Ok(options) => {
            let ranges = maps::from_numbers(map);
            let limit = calls::limit_by(flags, limit);
            let to = addresses_by(line_offset, ramdisk_at, tree_at);
            let answer = boot::tree::load(
                guest, ranges, image, options, limit, text, to, ramdisk, tree,
            );
            calls::put_booted(booted, answer)
        }
    }
}
