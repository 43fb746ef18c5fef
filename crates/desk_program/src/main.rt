// The desk program: reads a job from standard input, has it done, and writes its text to standard output.
#![tactic(auto)]

ghost use Rattle.std.specs.Prelude.{◌<◌, ◌≤◌, IfOk, length, take};
ghost use Rattle.std.specs.Io.KnownBytes.{Consumes, IsAtEnd};

use std::io;
use std::io::{Read, Write};

// Reads until the room is full or the input ends, and returns how many bytes were read: the first of the room are those
// that the input no longer has, and if the room is not full the input has none left.
fn read_full<R: Read>(input: &mut R, room: &mut [u8]) -> io::Result<usize>
    ensures bound { IfOk result (λ n. n ≤ length room.new) }
    ensures bytes { IfOk result (λ n. Consumes (R.remaining input.old) (R.remaining input.new) (take n room.new)) }
    ensures whole { IfOk result (λ n. n < length room.new → IsAtEnd (R.remaining input.new)) }
{
    // An index, since each read goes on where the one before it ended, and may give fewer bytes than it has room for.
    let mut n = 0;
    while n < room.len() {
        let more = input.read(&mut room[n..])?;
        if more == 0 {
            return Ok(n);
        }
        n += more;
    }
    Ok(n)
}

// Does a job, and prints its text.
fn answer(rt: &impl Print, job: &[u8]) -> io::Result<()> {
    let output = desk::do_job(job);
    let n = output.length.min(output.bytes.len());
    io::writer(rt).write_all(&output.bytes[..n])
}

fn main(rt: HostRuntime) -> io::Result<()> {
    // one byte more than a job may have, so that a longer job is seen to be longer
    let mut room = [0; 16385];
    let n = read_full(&mut rt.reader(), &mut room)?;
    answer(&rt, &room[..n])
}
