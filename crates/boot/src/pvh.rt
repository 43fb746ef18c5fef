// A boot by PVH: an ELF kernel with a PVH entry, entered in 32-bit mode with the address of its start block. The rows
// are one list of numbers, as the C function `rekusoyen_raw_boot_pvh` takes them. `check`, `plan` and `load` are named
// as those of the other two boots, and follow Xen's PVH document alone.
ghost use Rattle.std.specs.Prelude.{◌≡◌, [], ◌∷◌, eqb};
ghost use Rattle.answers.specs.Pick.{pick};
ghost use Rattle.answers.specs.Tests.{pass, asked_all};
ghost use Rattle.cmdline.specs.Writing.{bare};
ghost use Rattle.boot.specs.Entering.{pvh_entry, pvh_tests};
ghost use Rattle.guest.specs.Room.{memory_of};
ghost use Rattle.guest.specs.Stream.{pour};
ghost use Rattle.start_info.specs.Writing.{start_size};
ghost use Rattle.start_info.specs.Writing as writing;
ghost use Rattle.boot.specs.Pvh.{module_numbers, modules_of, start_of, tests, answer_of, Boots};

use crate::{Booted, MapRows, pieces};
use answers::Refusal;
use guest::{
    GuestAddress, ImagePlace, KernelLoaderResult, Map, Memory, PvhBootCapability, addresses,
    copying,
};
use loads::{Options, formats};
use start_info::Start;

// The addresses of line, ramdisk and start block, and that of the RSDP, 0 if there is none. The modules and the memory
// map follow the block.
#[derive(Clone, Copy)]
pub struct Pvh {
    pub line: GuestAddress,
    pub ramdisk: GuestAddress,
    pub block: u32,
    pub rsdp: GuestAddress,
}

fn entry(pvh: PvhBootCapability) -> Option<GuestAddress>
    ensures { result ≡ pvh_entry pvh }
{
    match pvh {
        PvhBootCapability::PvhEntryPresent(note) => Some(note.entry),
        PvhBootCapability::PvhEntryNotPresent | PvhBootCapability::PvhEntryIgnored => None,
    }
}

// The checks of how a kernel is entered.
#[tactic(auto, unfolding(answers::specs::Pick::pick, answers::specs::Tests::asked, guest::specs::Addresses::is_given, guest::specs::Addresses::amount_of))]
fn check_entry(entry: Option<GuestAddress>) -> Result<(), Refusal>
    ensures { result ≡ asked_all pass (pvh_tests «entry») }
{
    answers::require(entry.is_some(), Refusal::NoPvhEntry)?;
    answers::require(addresses::amount(entry) <= 0xFFFF_FFFF, Refusal::WrongEntry)
}

// How many numbers the list of modules has: one row if there is a ramdisk.
fn module_numbers(n: u64) -> usize
    ensures { result ≡ module_numbers n }
{
    if n == 0 { 0 } else { 4 }
}

// The start block of a boot with a ramdisk of n bytes: the modules follow the block, the memory map follows them.
fn start(to: Pvh, n: u64) -> Start
    ensures { result ≡ start_of to n }
{
    let block = u64::from(to.block);
    let modules = module_numbers(n) as u64 * 8;
    Start {
        block: GuestAddress(block),
        modules: GuestAddress(block + 56),
        ranges: GuestAddress(block + 56 + modules),
        flags: 0,
        command_line: to.line,
        rsdp: to.rsdp,
    }
}

// The row of the one module that there may be: the ramdisk.
fn ramdisk_row(to: Pvh, n: u64) -> [u64; 4]
    ensures { result ≡ to.ramdisk.0 ∷ n ∷ 0 ∷ 0 ∷ [] }
{
    [to.ramdisk.0, n, 0, 0]
}

// The list of modules: that row, if the ramdisk has bytes.
fn modules(row: &[u64; 4], n: u64) -> &[u64]
    ensures { result.now ≡ pick (eqb n 0) [] row.now }
{
    if n == 0 { &[] } else { row }
}

// The checks of the start block by its own call.
fn check_block(memory: &Memory, to: Pvh, n: u64, rows: &[u64]) -> Result<(), Refusal>
    ensures { result ≡ asked_all pass (writing.tests memory.now (start_of to n) (modules_of to n) rows.now) }
{
    start_info::plan(memory, start(to, n), modules(&ramdisk_row(to, n), n), rows)
}

// How many bytes the block takes with its lists.
fn block_size(to: Pvh, n: u64, rows: &[u64]) -> u64
    ensures { result ≡ start_size (modules_of to n) rows.now }
{
    start_info::size(modules(&ramdisk_row(to, n), n), rows)
}

// Writes the block with its lists.
fn put_block(guest: &mut [u8], map: Map, to: Pvh, n: u64, rows: &[u64])
    ensures { guest.new ≡ pour
        (writing.plan_of (memory_of guest.old map) (start_of to n) (modules_of to n) rows.now).stream guest.old }
{
    // cannot refuse: `plan` has made its checks
    let _ = start_info::write(
        guest,
        map,
        start(to, n),
        modules(&ramdisk_row(to, n), n),
        rows,
    );
}

// All checks of a boot whose kernel is accepted. The parameters of `check`, `plan` and `load` stay apart: a struct of
// them was tried, and a clause then reads `boot.kernel.image.now` for `image.now`, no plainer; `load` promises on each
// by its name.
fn check(
    memory: &Memory,
    image: &[u8],
    options: Options,
    limit: Option<u32>,
    boot: &[u8],
    init: &[u8],
    to: Pvh,
    ramdisk_len: u64,
    rows: &[u64],
    kernel: KernelLoaderResult,
) -> Result<(), Refusal>
    ensures { result ≡ asked_all pass
        (tests memory.now image.now options limit (bare boot.now init.now) to ramdisk_len rows.now kernel) }
{
    check_entry(entry(kernel.pvh_boot_cap))?;
    loader::plan_texts(memory, to.line, boot, init)?;
    check_block(memory, to, ramdisk_len, rows)?;
    pieces::check_line(image, options, limit, boot.len(), init.len())?;
    let line_size = pieces::line_size(boot.len(), init.len());
    pieces::check(
        memory,
        image,
        options,
        Some(MapRows {
            numbers: rows,
            width: 4,
        }),
        pieces::range(to.line.0, line_size),
        pieces::range(to.ramdisk.0, ramdisk_len),
        pieces::range(u64::from(to.block), block_size(to, ramdisk_len, rows)),
    )
}

// What a boot into this memory returns, with a ramdisk of so many bytes. Rows are four numbers each: address, size,
// type, 0.
pub fn plan(
    memory: &Memory,
    image: &[u8],
    options: Options,
    limit: Option<u32>,
    boot: &[u8],
    init: &[u8],
    to: Pvh,
    ramdisk_len: u64,
    rows: &[u64],
) -> Result<Booted, Refusal>
    ensures { result ≡ answer_of memory.now image.now options limit (bare boot.now init.now) to ramdisk_len rows.now }
{
    let kernel = formats::plan(memory, image, options)?;
    check(
        memory,
        image,
        options,
        limit,
        boot,
        init,
        to,
        ramdisk_len,
        rows,
        kernel,
    )?;
    let at = addresses::amount(entry(kernel.pvh_boot_cap));
    Ok(Booted {
        kernel,
        entry: GuestAddress(at),
    })
}

// Puts kernel, line, ramdisk and start block into guest memory: all of them, or nothing.
pub fn load(
    guest: &mut [u8],
    map: Map,
    image: &[u8],
    options: Options,
    limit: Option<u32>,
    boot: &[u8],
    init: &[u8],
    to: Pvh,
    ramdisk: &[u8],
    rows: &[u64],
) -> Result<Booted, Refusal>
    ensures { Boots image.now options limit (bare boot.now init.now) to ramdisk.now rows.now map guest.old result
        guest.new }
{
    let memory = Memory::of(guest, map);
    let n = ramdisk.len() as u64;
    let booted = plan(&memory, image, options, limit, boot, init, to, n, rows)?;
    // these two cannot refuse: `plan` has made their checks
    let _ = loads::load(guest, map, image, options);
    let _ = loader::load_texts(guest, map, to.line, boot, init);
    copying::copy_image(guest, to.ramdisk, ramdisk, ImagePlace(0), n);
    put_block(guest, map, to, n, rows);
    Ok(booted)
}
