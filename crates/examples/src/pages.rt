// The boot page, built and read back.
use crate::printing::{List, Refused};
use boot_page::Addresses;
use fields::numbers;
use std::io;

fn print_read(rt: &impl Print, page: &[u8]) -> io::Result<()> {
    let mut rows = [0u64; 6];
    print!(rt; " loader type {}", numbers::byte_at(page, 0x210, 0))?;
    match boot_page::read(page, &mut rows) {
        Err(refusal) => println!(rt; "{}", Refused(refusal)),
        Ok(page) => {
            let at = page.addresses;
            print!(rt; " command line {} ramdisk {}", at.command_line, at.ramdisk)?;
            println!(rt; " {} rows {}:{}", at.ramdisk_size, page.rows, List(&rows))
        }
    }
}

// A page with these rows, a list of numbers as `boot_page` takes them.
fn build(rt: &impl Print, what: &str, rows: &[u64], page: &mut [u8]) -> io::Result<()> {
    let header = [1u8; 123];
    let addresses = Addresses {
        command_line: 0x2_0000,
        ramdisk: 0x200_0000,
        ramdisk_size: 5,
    };
    print!(rt; "page of {what}:")?;
    match boot_page::build(page, &header, addresses, rows) {
        Err(refusal) => println!(rt; "{}", Refused(refusal)),
        Ok(()) => print_read(rt, page),
    }
}

pub(crate) fn print(rt: &impl Print) -> io::Result<()> {
    build(
        rt,
        "2 rows",
        &[0, 0x9_fc00, 1, 0x10_0000, 0x4000_0000, 1],
        &mut [0xee; 4096],
    )?;
    build(
        rt,
        "2 rows that overlap",
        &[0, 4096, 1, 4095, 1, 2],
        &mut [0xee; 4096],
    )?;
    build(rt, "an empty row", &[0, 0, 1], &mut [0xee; 4096])?;
    build(rt, "4095 bytes", &[0, 4096, 1], &mut [0xee; 4095])
}
