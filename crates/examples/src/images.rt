// The images of the examples.
use fields::{copying, numbers};

// An ELF image of 123 bytes: entry 16, and one program header, bytes at offset 120 for address 16, of these sizes in
// the file and in memory.
pub(crate) fn elf(in_file: u64, in_memory: u64) -> [u8; 123] {
    let mut image = [0; 123];
    copying::put(&mut image, 0, b"\x7fELF\x00\x01");
    numbers::put_le(&mut image, 24, 8, 16);
    numbers::put_le(&mut image, 32, 8, 64);
    numbers::put_le(&mut image, 54, 2, 56);
    numbers::put_le(&mut image, 56, 2, 1);
    // the program header
    numbers::put_le(&mut image, 64, 4, 1);
    numbers::put_le(&mut image, 72, 8, 120);
    numbers::put_le(&mut image, 88, 8, 16);
    numbers::put_le(&mut image, 96, 8, in_file);
    numbers::put_le(&mut image, 104, 8, in_memory);
    copying::put(&mut image, 120, b"\xaa\xbb\xcc");
    image
}

// A bzImage of N bytes that says 0 sectors, to be loaded at 1 MiB; three bytes follow a setup of 2,560.
pub(crate) fn bzimage<const N: usize>() -> [u8; N] {
    let mut image = [0; N];
    copying::put(&mut image, 0x202, b"HdrS");
    numbers::put_le(&mut image, 0x206, 2, 0x20f);
    numbers::put_le(&mut image, 0x211, 1, 1);
    numbers::put_le(&mut image, 0x214, 4, 0x10_0000);
    copying::put(&mut image, 2560, b"\xaa\xbb\xcc");
    image
}

// An arm64 Image of N bytes with text offset 8 and this image size.
pub(crate) fn arm64<const N: usize>(size: u64) -> [u8; N] {
    let mut image = [0; N];
    numbers::put_le(&mut image, 8, 8, 8);
    numbers::put_le(&mut image, 16, 8, size);
    numbers::put_le(&mut image, 56, 4, 0x644d_5241);
    image
}
