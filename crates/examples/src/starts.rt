// The PVH start block, written into guest memory and checked there.
use crate::printing::{List, Refused};
use answers::Refusal;
use fields::numbers;
use guest::{GuestAddress, maps};
use start_info::Start;
use std::io;

fn print_check(rt: &impl Print, guest: &[u8]) -> io::Result<()> {
    match start_info::check(guest, maps::whole(guest.len() as u64), GuestAddress(0)) {
        Err(refusal) => println!(rt; "{}", Refused(refusal)),
        Ok(()) => {
            let mut block = [0u64; 10];
            let _ = start_info::read_block(&mut block, guest, GuestAddress(0));
            println!(rt; " accepted{}", List(&block))
        }
    }
}

// A block at 0, its list of one module at an address, and the memory map of one row at 88.
fn write(guest: &mut [u8], modules: u64) -> Result<(), Refusal> {
    let start = Start {
        block: GuestAddress(0),
        modules: GuestAddress(modules),
        ranges: GuestAddress(88),
        flags: 0,
        command_line: GuestAddress(4096),
        rsdp: GuestAddress(8192),
    };
    start_info::write(
        guest,
        maps::whole(guest.len() as u64),
        start,
        &[65536, 5, 0, 0],
        &[0, 1048576, 1, 0],
    )
}

fn written(rt: &impl Print, what: &str, modules: u64) -> io::Result<()> {
    let mut guest = [0u8; 112];
    print!(rt; "start block, {what}:")?;
    match write(&mut guest, modules) {
        Err(refusal) => println!(rt; "{}", Refused(refusal)),
        Ok(()) => print_check(rt, &guest),
    }
}

// Changed at one byte after it was written.
fn changed(rt: &impl Print, what: &str, at: u64) -> io::Result<()> {
    let mut guest = [0u8; 112];
    print!(rt; "start block, {what} changed:")?;
    let _ = write(&mut guest, 56);
    numbers::put_le(&mut guest, at, 1, 7);
    print_check(rt, &guest)
}

pub(crate) fn print(rt: &impl Print) -> io::Result<()> {
    written(rt, "modules right after it", 56)?;
    written(rt, "modules over its last byte", 55)?;
    written(rt, "modules past guest memory", 112)?;
    changed(rt, "magic", 0)?;
    changed(rt, "a reserved byte of the memory map", 111)?;
    changed(rt, "flags", 8)
}
