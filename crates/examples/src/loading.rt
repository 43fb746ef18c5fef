// Loads of images into zeros: what is returned, and guest memory after it.
use crate::images;
use crate::printing::{Guest, Load};
use bzimage::header;
use fields::numbers;
use guest::{GuestAddress, maps};
use loads::{Options, formats};
use std::io;

// Loads an image, by its magic number, into the whole of guest memory.
fn load(
    rt: &impl Print,
    what: &str,
    image: &[u8],
    kernel_offset: Option<u64>,
    guest: &mut [u8],
) -> io::Result<()> {
    print!(rt; "{what}:")?;
    let Some(format) = formats::kind_of(image) else {
        return println!(rt; " of no known format");
    };
    let options = Options {
        format,
        kernel_offset: kernel_offset.map(GuestAddress),
        highmem_start: None,
    };
    let answer = loads::load(guest, maps::whole(guest.len() as u64), image, options);
    println!(rt; "{}{}", Load(answer), Guest(guest))
}

fn bzimages(rt: &impl Print) -> io::Result<()> {
    load(
        rt,
        "bzImage, 0 sectors, 2559 bytes",
        &images::bzimage::<2559>(),
        None,
        &mut [0; 8],
    )?;
    load(
        rt,
        "bzImage, 0 sectors, 2560 bytes",
        &images::bzimage::<2560>(),
        None,
        &mut [0; 8],
    )?;
    let image = images::bzimage::<2563>();
    load(
        rt,
        "bzImage, 0 sectors, 2563 bytes, offset 4",
        &image,
        Some(4),
        &mut [0; 8],
    )?;
    let header = header::header_with(&image, GuestAddress(0x1_0000_0004));
    let start = numbers::read_u32(&header, 0x23);
    println!(rt; "its setup header for load address 4294967300: code32_start {start}")
}

fn elf(rt: &impl Print, in_file: u64, in_memory: u64) -> io::Result<()> {
    print!(rt; "ELF, one segment, ")?;
    let image = images::elf(in_file, in_memory);
    print!(rt; "{in_file} bytes in the file, ")?;
    print!(rt; "{in_memory} in memory")?;
    load(rt, "", &image, None, &mut [0; 32])
}

fn arm64(rt: &impl Print, what: &str, size: u64, base: u64) -> io::Result<()> {
    print!(rt; "arm64 Image, 68 bytes, text offset 8, ")?;
    load(
        rt,
        what,
        &images::arm64::<68>(size),
        Some(base),
        &mut [0; 76],
    )
}

pub(crate) fn print(rt: &impl Print) -> io::Result<()> {
    bzimages(rt)?;
    elf(rt, 3, 8)?;
    elf(rt, 0, 8)?;
    elf(rt, 0, 0)?;
    elf(rt, 3, 2)?;
    arm64(rt, "image size 128", 128, 0)?;
    arm64(rt, "image size 0", 0, 0)?;
    arm64(rt, "base 1", 128, 1)?;
    load(
        rt,
        "arm64 Image, 69 bytes, text offset 8",
        &images::arm64::<69>(128),
        Some(0),
        &mut [0; 76],
    )?;
    load(
        rt,
        "arm64 Image, 63 bytes",
        &images::arm64::<63>(128),
        Some(0),
        &mut [0; 76],
    )
}
