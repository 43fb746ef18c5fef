// Lines by value: made, written, compared and put into guest memory.
use crate::printing::{Guest, Refused, Text};
use answers::Refusal;
use cmdline::Cmdline;
use guest::{GuestAddress, maps};
use std::io;

fn write(out: &mut [u8], line: Result<Cmdline, Refusal>) -> Result<usize, Refusal> {
    line?.as_cstring(out)
}

// Prints a line that is written into this room without its zero, or why it could not be made or written.
fn written(
    rt: &impl Print,
    what: &str,
    line: Result<Cmdline, Refusal>,
    out: &mut [u8],
) -> io::Result<()> {
    print!(rt; "{what}:")?;
    match write(out, line) {
        Err(refusal) => println!(rt; "{}", Refused(refusal)),
        Ok(n) => {
            let end = n.min(out.len()).saturating_sub(1);
            println!(rt; "{}", Text(&out[..end]))
        }
    }
}

fn device(size: u64, id: Option<u32>) -> Result<Cmdline, Refusal> {
    let mut line = Cmdline::new(80)?;
    line.add_virtio_mmio_device(size, GuestAddress(4096), 5, id)?;
    Ok(line)
}

fn foo_is_bar() -> Result<Cmdline, Refusal> {
    let mut line = Cmdline::new(8)?;
    line.insert(b"foo", b"bar")?;
    Ok(line)
}

fn are_equal(a: &[u8], b: &[u8]) -> Result<bool, Refusal> {
    let a = Cmdline::try_from(a, 16384)?;
    let b = Cmdline::try_from(b, 16384)?;
    Ok(a.eq(&b))
}

fn equal(rt: &impl Print, what: &str, a: &[u8], b: &[u8]) -> io::Result<()> {
    match are_equal(a, b) {
        Err(refusal) => println!(rt; "{what}:{}", Refused(refusal)),
        Ok(true) => println!(rt; "{what}: equal"),
        Ok(false) => println!(rt; "{what}: different"),
    }
}

fn capacity(rt: &impl Print, capacity: usize) -> io::Result<()> {
    match Cmdline::new(capacity) {
        Err(refusal) => println!(rt; "line of capacity {capacity}:{}", Refused(refusal)),
        Ok(_) => println!(rt; "line of capacity {capacity}: accepted"),
    }
}

fn load(guest: &mut [u8]) -> Result<(), Refusal> {
    let line = foo_is_bar()?;
    loader::load_cmdline(
        guest,
        maps::whole(guest.len() as u64),
        GuestAddress(4),
        &line,
    )
}

fn loaded(rt: &impl Print, guest: &mut [u8]) -> io::Result<()> {
    print!(rt; "line foo=bar at 4, guest memory of {} bytes:", guest.len())?;
    match load(guest) {
        Err(refusal) => print!(rt; "{}", Refused(refusal))?,
        Ok(()) => print!(rt; " loaded")?,
    }
    println!(rt; "{}", Guest(guest))
}

pub(crate) fn print(rt: &impl Print) -> io::Result<()> {
    written(
        rt,
        "device 4096, 4096, 5, 42",
        device(4096, Some(42)),
        &mut [0; 80],
    )?;
    written(rt, "device 4097, 4096, 5", device(4097, None), &mut [0; 80])?;
    written(
        rt,
        "device 0, 4096, 5, 42",
        device(0, Some(42)),
        &mut [0; 80],
    )?;
    written(rt, "line foo=bar into 7 bytes", foo_is_bar(), &mut [0; 7])?;
    written(
        rt,
        "line of init text only",
        Cmdline::try_from(b" -- z", 16384),
        &mut [0; 8],
    )?;
    equal(rt, "lines of init text only", b" -- y", b" -- z")?;
    equal(rt, "lines with boot text", b"a -- y", b"a -- z")?;
    capacity(rt, 16384)?;
    capacity(rt, 16385)?;
    loaded(rt, &mut [0; 12])?;
    loaded(rt, &mut [0; 11])
}
