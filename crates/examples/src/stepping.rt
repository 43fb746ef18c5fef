// The ELF image of 123 bytes, loaded in steps: the bytes that each copies, what it replies, and guest memory after all.
use crate::images;
use crate::printing::{Guest, Load, Refused};
use guest::maps;
use loads::steps::{Reply, State};
use loads::{Format, Options, steps};
use std::io;

fn step(
    rt: &impl Print,
    state: State,
    image: &[u8],
    guest: &mut [u8],
    budget: u64,
) -> io::Result<State> {
    let stepped = steps::step(guest, maps::whole(guest.len() as u64), image, state, budget);
    print!(rt; " | budget {budget}:")?;
    match stepped.reply {
        Reply::Refused(refusal) => print!(rt; "{}", Refused(refusal))?,
        Reply::More => print!(rt; " {} more", stepped.copied)?,
        Reply::Answers(answer) => print!(rt; " {}{}", stepped.copied, Load(answer))?,
    }
    Ok(stepped.state)
}

fn begin() -> State {
    steps::begin(Options {
        format: Format::Elf,
        kernel_offset: None,
        highmem_start: None,
    })
}

fn in_twos(rt: &impl Print) -> io::Result<()> {
    let image = images::elf(3, 8);
    let shorter = [0u8; 122];
    let mut guest = [0u8; 32];
    print!(rt; "ELF in steps of 2 bytes")?;
    let state = step(rt, begin(), &image, &mut guest, 2)?;
    // two calls that are no steps: with no budget, and with an image of another length
    let state = step(rt, state, &image, &mut guest, 0)?;
    let state = step(rt, state, &shorter, &mut guest, 2)?;
    // the step that answers, and one after it
    let state = step(rt, state, &image, &mut guest, 2)?;
    step(rt, state, &image, &mut guest, 2)?;
    println!(rt; "{}", Guest(&guest))
}

fn in_one(rt: &impl Print) -> io::Result<()> {
    let image = images::elf(3, 8);
    let mut guest = [0u8; 32];
    print!(rt; "ELF in one step")?;
    step(rt, begin(), &image, &mut guest, 3)?;
    println!(rt; "{}", Guest(&guest))
}

pub(crate) fn print(rt: &impl Print) -> io::Result<()> {
    in_twos(rt)?;
    in_one(rt)
}
