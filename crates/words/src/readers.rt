// The reader of plain text and the reader of quoted text. At each quote one calls the other.
ghost use Rattle.std.specs.Prelude.{◌≡◌, length, drop};
ghost use Rattle.words.specs.Readers.{plain_from, quoted_from};

// How many bytes a slice has: as the result of a call it is known to fit 64 bits, also if the slice is borrowed
// by a second reference.
fn size(s: &[u8]) -> usize
    ensures { result ≡ length s.now }
{
    s.len()
}

// From a place outside quotes on: the first place outside quotes that has the byte, else the quote that is not closed,
// else the line's end. The line is borrowed by a reference to its slice, and the result is a number, so that a call in
// tail position needs no stack. `plain` and `quoted` are a `while` each: with `position`, which was tried, a line of
// 16,000 quotes took 2.6 times the instructions.
#[cycle(plain_quoted)]
fn plain(line: &&[u8], at: usize, byte: u8) -> usize
    ensures { result ≡ plain_from byte (drop at line.now.now) at }
{
    let s = *line;
    let n = size(s);
    let mut i = at;
    while i < n {
        if s[i] == b'"' {
            return quoted(line, i + 1, byte, i);
        }
        if s[i] == byte {
            return i;
        }
        i += 1;
    }
    i
}

// The same from a place within quotes on, which opened at a given place.
#[cycle(plain_quoted)]
fn quoted(line: &&[u8], at: usize, byte: u8, opened: usize) -> usize
    ensures { result ≡ quoted_from byte (drop at line.now.now) at opened }
{
    let s = *line;
    let n = size(s);
    let mut i = at;
    while i < n {
        if s[i] == b'"' {
            return plain(line, i + 1, byte);
        }
        i += 1;
    }
    opened
}

// The same of a slice: the place at which reading stops.
pub(crate) fn stop_at(line: &[u8], at: usize, byte: u8) -> usize
    ensures { result ≡ plain_from byte (drop at line.now) at }
{
    plain(&line, at, byte)
}
