// A boot with a device tree: an arm64 Image, entered with the address of the tree. `check`, `plan` and `load` are named
// as those of the other two boots, and follow Linux's arm64 booting document alone.
ghost use Rattle.std.specs.Prelude.{◌≡◌};
ghost use Rattle.answers.specs.Tests.{pass, asked_all};
ghost use Rattle.boot.specs.Entering.{enters_by_tree};
ghost use Rattle.boot.specs.Tree.{line_in, own_tests, tests, answer_of, Boots};

use crate::{Booted, pieces};
use answers::Refusal;
use cmdline::writing;
use fields::{numbers, ranges, tags};
use guest::{GuestAddress, ImagePlace, Map, Memory, copying};
use loads::{Format, Options, formats};

// The addresses of tree and ramdisk, and the offset in the tree at which the line is.
#[derive(Clone, Copy)]
pub struct Tree {
    pub tree: GuestAddress,
    pub ramdisk: GuestAddress,
    pub line: u64,
}

// Is an image of this format entered with a device tree?
fn enters(format: Format) -> bool
    ensures { result ≡ enters_by_tree format }
{
    format == Format::Arm64
}

// Does the tree hold the line and its zero at an offset?
fn has_line(tree: &[u8], at: u64, text: &[u8]) -> bool
    ensures { result ≡ line_in tree.now «at» text.now }
{
    let len = tree.len() as u64;
    let n = text.len() as u64;
    ranges::within(len, at, n)
        && ranges::within(len, at + n, 1)
        && numbers::byte_at(tree, at, n) == 0
        && tags::is_tag(tree, at, text)
}

// The checks of how the kernel is entered, of the text, and that the tree has it.
fn check_own(format: Format, tree: &[u8], at: u64, text: &[u8]) -> Result<(), Refusal>
    ensures { result ≡ asked_all pass (own_tests format tree.now «at» text.now) }
{
    let empty: [u8; 0] = [];
    answers::require(enters(format), Refusal::WrongEntry)?;
    answers::require(
        writing::text_gate(text, &empty).is_ok(),
        Refusal::InvalidCommandLine,
    )?;
    answers::require(has_line(tree, at, text), Refusal::LineNotInTree)
}

// All checks of a boot whose kernel is accepted. The parameters of `check`, `plan` and `load` stay apart: a struct of
// them was tried, and a clause then reads `boot.kernel.image.now` for `image.now`, no plainer; `load` promises on each
// by its name.
fn check(
    memory: &Memory,
    image: &[u8],
    options: Options,
    limit: Option<u32>,
    text: &[u8],
    to: Tree,
    ramdisk_len: u64,
    tree: &[u8],
) -> Result<(), Refusal>
    ensures { result ≡ asked_all pass (tests memory.now image.now options limit text.now to ramdisk_len tree.now) }
{
    check_own(options.format, tree, to.line, text)?;
    pieces::check_line(image, options, limit, text.len(), 0)?;
    pieces::check(
        memory,
        image,
        options,
        None, // the tree has the memory map
        pieces::range(0, 0),
        pieces::range(to.ramdisk.0, ramdisk_len),
        pieces::range(to.tree.0, tree.len() as u64),
    )
}

// What a boot into this memory returns, with a ramdisk of so many bytes.
pub fn plan(
    memory: &Memory,
    image: &[u8],
    options: Options,
    limit: Option<u32>,
    text: &[u8],
    to: Tree,
    ramdisk_len: u64,
    tree: &[u8],
) -> Result<Booted, Refusal>
    ensures { result ≡ answer_of memory.now image.now options limit text.now to ramdisk_len tree.now }
{
    let kernel = formats::plan(memory, image, options)?;
    check(memory, image, options, limit, text, to, ramdisk_len, tree)?;
    Ok(Booted {
        kernel,
        entry: kernel.kernel_load,
    })
}

// Puts kernel, ramdisk and tree into guest memory: all of them, or nothing.
pub fn load(
    guest: &mut [u8],
    map: Map,
    image: &[u8],
    options: Options,
    limit: Option<u32>,
    text: &[u8],
    to: Tree,
    ramdisk: &[u8],
    tree: &[u8],
) -> Result<Booted, Refusal>
    ensures { Boots image.now options limit text.now to ramdisk.now tree.now map guest.old result guest.new }
{
    let memory = Memory::of(guest, map);
    let n = ramdisk.len() as u64;
    let booted = plan(&memory, image, options, limit, text, to, n, tree)?;
    // cannot refuse: `plan` has made its checks
    let _ = loads::load(guest, map, image, options);
    copying::copy_image(guest, to.ramdisk, ramdisk, ImagePlace(0), n);
    copying::copy_image(guest, to.tree, tree, ImagePlace(0), tree.len() as u64);
    Ok(booted)
}
