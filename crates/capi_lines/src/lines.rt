// A line in bytes of the caller: the length of its boot text, of its init text and its capacity, 8 bytes each and the
// least byte first, then its boot buffer and its init buffer. Calls work on those bytes in place.
ghost use Rattle.std.specs.Prelude.{◌≡◌, length, take, drop};
ghost use Rattle.cmdline.specs.Writing.{written_number, written_count};
ghost use Rattle.capi.specs.Values.{Tells};
ghost use Rattle.capi_lines.specs.Lines.{header_of, with_text, StoresLength, Makes};

use answers::Refusal;
use cmdline::LIMIT;
use cmdline::sizes::Lengths;
use fields::numbers;
use slugs::buffers;

// How many bytes hold a line.
pub(crate) const SIZE: usize = 24 + 2 * LIMIT;

// Where the lengths of the two texts are.
pub(crate) const BOOTS: u64 = 0;

pub(crate) const INITS: u64 = 8;

// Where the two buffers begin.
pub(crate) const BOOT: usize = 24;

pub(crate) const INIT: usize = 24 + LIMIT;

// The lengths of the texts and the capacity, if the bytes are a line: their size is tested, then the numbers are.
pub(crate) fn read_header(bytes: &[u8]) -> Result<Lengths, Refusal>
    ensures { result ≡ header_of bytes.now }
{
    answers::require(bytes.len() == SIZE, Refusal::NoRoom)?;
    let lengths = Lengths {
        boot_len: numbers::read_u64(bytes, 0) as usize,
        init_len: numbers::read_u64(bytes, 8) as usize,
        capacity: numbers::read_u64(bytes, 16) as usize,
    };
    lengths.check()?;
    Ok(lengths)
}

// The text of n bytes from a place on, as far as the bytes go.
pub(crate) fn text_at(bytes: &[u8], place: usize, n: usize) -> &[u8]
    ensures { result.now ≡ take n (drop place bytes.now) }
{
    let rest = &bytes[place.min(bytes.len())..];
    &rest[..n.min(rest.len())]
}

// The number of what an insertion says; the length of the text that it appended to, at its place.
pub(crate) fn tell(bytes: &mut [u8], place: u64, appended: Result<usize, Refusal>) -> u32
    ensures { StoresLength appended place bytes.old result bytes.new }
{
    match appended {
        Err(refusal) => u32::from(refusal),
        Ok(length) => {
            numbers::put_le(bytes, place, 8, length as u64);
            0
        }
    }
}

// A text from a place on, and its length at another.
fn put_text(bytes: &mut [u8], number: u64, place: usize, text: &[u8])
    ensures { bytes.new ≡ with_text number place bytes.old text.now }
{
    buffers::put(bytes, place, text);
    numbers::put_le(bytes, number, 8, text.len() as u64);
}

// A new line of two texts, over whatever the bytes held: the size of the bytes is tested, then the capacity and the
// sizes of the texts.
pub(crate) fn make(bytes: &mut [u8], capacity: u64, boot: &[u8], init: &[u8]) -> Result<(), Refusal>
    ensures { Makes bytes.old capacity boot.now init.now result bytes.new }
{
    answers::require(bytes.len() == SIZE, Refusal::NoRoom)?;
    let lengths = Lengths {
        boot_len: boot.len(),
        init_len: init.len(),
        capacity: capacity as usize,
    };
    lengths.check()?;
    bytes.fill(0);
    numbers::put_le(bytes, 16, 8, capacity);
    put_text(bytes, BOOTS, BOOT, boot);
    put_text(bytes, INITS, INIT, init);
    Ok(())
}

// The number of what writing says; how many bytes into `count`.
pub(crate) fn tell_written(count: &mut [u64], written: Result<usize, Refusal>) -> u32
    requires { length count.old ≡ 1 }
    ensures { Tells (written_number written) (written_count written) count.old result count.new }
{
    match written {
        Ok(n) => {
            count[0] = n as u64;
            0
        }
        Err(refusal) => u32::from(refusal),
    }
}
