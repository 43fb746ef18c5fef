// A boot by zero page: a bzImage, or an ELF kernel by its 64-bit entry. The rows are one list of numbers, as the C
// function `rekusoyen_raw_boot_zero_page` takes them. `check`, `plan` and `load` are named as those of the other two
// boots, and follow the Linux x86 boot protocol alone. `wide` is the C flag REKUSOYEN_ENTRY_64_BIT, a field of
// `ZeroPage`, and `format` one of `Options`: a struct of the two would be filled from both before each call.
ghost use Rattle.std.specs.Prelude.{◌≡◌, [], ◌≤◌, ◌+◌, length};
ghost use Rattle.answers.specs.Tests.{pass, asked_all};
ghost use Rattle.boot_page.specs.Building.{gate_of, page_of};
ghost use Rattle.cmdline.specs.Writing.{bare};
ghost use Rattle.guest.specs.Stream.{pour, stream_at};
ghost use Rattle.boot.specs.Entering.{enters_by, is_long, entry_of, has_entry, is_reached, zero_page_tests};
ghost use Rattle.boot.specs.ZeroPage.{setup_by, end_by, ends_below, ramdisk_tests, tests, answer_of, Boots};

use crate::{Booted, MapRows, pieces};
use answers::Refusal;
use boot_page::Addresses;
use bzimage::{header, protocol};
use fields::ranges;
use guest::{GuestAddress, ImagePlace, KernelLoaderResult, Map, Memory, copying};
use loads::{Format, Options, formats};

// The addresses of line, ramdisk and page, all below 4 GiB; and whether the kernel is entered in 64-bit mode.
#[derive(Clone, Copy)]
pub struct ZeroPage {
    pub line: u32,
    pub ramdisk: u32,
    pub page: u32,
    pub wide: bool,
}

// The setup header for an ELF kernel, which has none of its own: boot_flag, "HdrS", a kernel_alignment of 16 MiB, all
// else 0.
const ELF_HEADER: [u8; 67] = [
    0, 0, 0, 0, 0, 0, 0, 0, 0, 0, 0, 0, 0, 0x55, 0xAA, 0, 0, 0x48, 0x64, 0x72, 0x53, 0, 0, 0, 0, 0,
    0, 0, 0, 0, 0, 0, 0, 0, 0, 0, 0, 0, 0, 0, 0, 0, 0, 0, 0, 0, 0, 0, 0, 0, 0, 0, 0, 0, 0, 0, 0, 0,
    0, 0, 0, 0, 0, 0, 0, 0, 1,
];

// Can an image of this format be entered by zero page in this mode?
fn enters(format: Format, wide: bool) -> bool
    ensures { result ≡ enters_by format wide }
{
    match format {
        Format::Elf => wide,
        Format::BzImage => true,
        Format::Arm64 => false,
    }
}

// Is it the 64-bit entry of a bzImage?
fn is_long(format: Format, wide: bool) -> bool
    ensures { result ≡ is_long format wide }
{
    wide && format == Format::BzImage
}

// The address at which a kernel is entered that was loaded at `load`.
fn entry(format: Format, wide: bool, load: u64) -> u64
    ensures { result ≡ entry_of format wide load }
{
    if is_long(format, wide) {
        load.saturating_add(0x200)
    } else {
        load
    }
}

// Has the image the entry that the caller wants?
fn has_entry(image: &[u8], format: Format, wide: bool) -> bool
    ensures { result ≡ has_entry image.now format wide }
{
    !is_long(format, wide) || protocol::has_64bit_entry(image)
}

// Can the mode reach the kernel?
fn is_reached(wide: bool, load: u64) -> bool
    ensures { result ≡ is_reached wide load }
{
    wide || load <= 0xFFFF_FFFF
}

// The checks of how a kernel is entered that was loaded at `load`.
fn check_entry(image: &[u8], format: Format, wide: bool, load: u64) -> Result<(), Refusal>
    ensures { result ≡ asked_all pass (zero_page_tests image.now format wide load) }
{
    answers::require(enters(format, wide), Refusal::WrongEntry)?;
    answers::require(has_entry(image, format, wide), Refusal::No64BitEntry)?;
    answers::require(is_reached(wide, load), Refusal::WrongEntry)
}

// The first address past the highest that a ramdisk may use.
pub fn ramdisk_end(image: &[u8], format: Format) -> u64
    ensures { result ≡ end_by format image.now }
{
    match format {
        Format::BzImage => protocol::ramdisk_end(image),
        Format::Elf | Format::Arm64 => 0x1_0000_0000,
    }
}

// Do n bytes at an address end there at the latest? No bytes end nowhere.
fn ends_below(end: u64, at: u64, n: u64) -> bool
    ensures { result ≡ ends_below end «at» n }
{
    n == 0 || ranges::within(end, at, n)
}

// The ramdisk does not end above what the kernel takes, and the page can name its size.
fn check_ramdisk(image: &[u8], format: Format, at: u64, n: u64) -> Result<(), Refusal>
    ensures { result ≡ asked_all pass (ramdisk_tests image.now format «at» n) }
{
    let end = ramdisk_end(image, format);
    answers::require(ends_below(end, at, n), Refusal::RamdiskTooHigh)?;
    answers::require(n <= 0xFFFF_FFFF, Refusal::RamdiskTooHigh)
}

// All checks of a boot whose kernel is accepted. The parameters of `check`, `plan` and `load` stay apart: a struct of
// them was tried, and a clause then reads `boot.kernel.image.now` for `image.now`, no plainer; `load` promises on each
// by its name.
fn check(
    memory: &Memory,
    image: &[u8],
    options: Options,
    limit: Option<u32>,
    boot: &[u8],
    init: &[u8],
    to: ZeroPage,
    ramdisk_len: u64,
    rows: &[u64],
    kernel: KernelLoaderResult,
) -> Result<(), Refusal>
    ensures { result ≡ asked_all pass
        (tests memory.now image.now options limit (bare boot.now init.now) to ramdisk_len rows.now kernel) }
{
    let line_at = u64::from(to.line);
    let ramdisk_at = u64::from(to.ramdisk);
    check_entry(image, options.format, to.wide, kernel.kernel_load.0)?;
    loader::plan_texts(memory, GuestAddress(line_at), boot, init)?;
    boot_page::plan(rows)?;
    check_ramdisk(image, options.format, ramdisk_at, ramdisk_len)?;
    pieces::check_line(image, options, limit, boot.len(), init.len())?;
    let line_size = pieces::line_size(boot.len(), init.len());
    pieces::check(
        memory,
        image,
        options,
        Some(MapRows {
            numbers: rows,
            width: 3,
        }),
        pieces::range(line_at, line_size),
        pieces::range(ramdisk_at, ramdisk_len),
        pieces::range(u64::from(to.page), 4096),
    )
}

// What a boot into this memory returns, with a ramdisk of so many bytes. Rows are three numbers each: address, size,
// type.
pub fn plan(
    memory: &Memory,
    image: &[u8],
    options: Options,
    limit: Option<u32>,
    boot: &[u8],
    init: &[u8],
    to: ZeroPage,
    ramdisk_len: u64,
    rows: &[u64],
) -> Result<Booted, Refusal>
    ensures { result ≡ answer_of memory.now image.now options limit (bare boot.now init.now) to ramdisk_len rows.now }
{
    let kernel = formats::plan(memory, image, options)?;
    check(
        memory,
        image,
        options,
        limit,
        boot,
        init,
        to,
        ramdisk_len,
        rows,
        kernel,
    )?;
    let at = entry(options.format, to.wide, kernel.kernel_load.0);
    Ok(Booted {
        kernel,
        entry: GuestAddress(at),
    })
}

// Builds the page with the setup header of a bzImage or, for an ELF kernel, one of its own.
fn build(page: &mut [u8], image: &[u8], format: Format, load: u64, named: Addresses, rows: &[u64])
    requires { gate_of (length page.old) rows.now ≡ pass }
    ensures { page.new ≡ page_of (setup_by format image.now load) named rows.now }
{
    match format {
        Format::Elf => {
            boot_page::build(page, &ELF_HEADER, named, rows).unwrap();
        }
        Format::BzImage => {
            let own = header::header_with(image, GuestAddress(load));
            boot_page::build(page, &own, named, rows).unwrap();
        }
        Format::Arm64 => {
            boot_page::build(page, &[], named, rows).unwrap();
        }
    }
}

// Puts kernel, line, ramdisk and page into guest memory: all of them, or nothing.
pub fn load(
    guest: &mut [u8],
    map: Map,
    image: &[u8],
    options: Options,
    limit: Option<u32>,
    boot: &[u8],
    init: &[u8],
    to: ZeroPage,
    ramdisk: &[u8],
    rows: &[u64],
) -> Result<Booted, Refusal>
    ensures { Boots image.now options limit (bare boot.now init.now) to ramdisk.now rows.now map guest.old result
        guest.new }
{
    let memory = Memory::of(guest, map);
    let n = ramdisk.len() as u64;
    let booted = plan(&memory, image, options, limit, boot, init, to, n, rows)?;
    // these two cannot refuse: `plan` has made their checks
    let _ = loads::load(guest, map, image, options);
    let _ = loader::load_texts(guest, map, GuestAddress(u64::from(to.line)), boot, init);
    let ramdisk_at = GuestAddress(u64::from(to.ramdisk));
    copying::copy_image(guest, ramdisk_at, ramdisk, ImagePlace(0), n);
    let named = Addresses {
        command_line: to.line,
        ramdisk: to.ramdisk,
        ramdisk_size: n as u32,
    };
    let at = to.page as usize;
    let load = booted.kernel.kernel_load.0;
    build(
        &mut guest[at..at + 4096],
        image,
        options.format,
        load,
        named,
        rows,
    );
    Ok(booted)
}
