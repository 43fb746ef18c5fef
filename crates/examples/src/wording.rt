// The words of a line: the start, end and split of each.
use crate::printing::{List, Refused, Text};
use answers::Refusal;
use std::io;
use words::ReadError;

fn read(rt: &impl Print, line: &[u8]) -> io::Result<()> {
    let mut starts = [99u64; 3];
    let mut ends = [99u64; 3];
    let mut splits = [99u64; 3];
    print!(rt; "words of{} into lists of 3:", Text(line))?;
    match words::read(line, &mut starts, &mut ends, &mut splits) {
        Err(ReadError::UnclosedQuote(at)) => {
            println!(rt; "{} at {at}", Refused(Refusal::UnclosedQuote))
        }
        Err(ReadError::TooFewPlaces) => println!(rt; "{}", Refused(Refusal::TooFewPlaces)),
        Ok(n) => {
            print!(rt; " {n} words, starts{} ends{}", List(&starts), List(&ends))?;
            println!(rt; " splits{}", List(&splits))
        }
    }
}

pub(crate) fn print(rt: &impl Print) -> io::Result<()> {
    read(rt, b"a=\"x y\"  \"b=c\"=d quiet")?;
    read(rt, b"root=/dev/sda1 ro")?;
    read(rt, b"a \"b")?;
    read(rt, b"a b c d")
}
