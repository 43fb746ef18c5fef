// Little-endian numbers at a place of a slice. A byte past the end is read as 0, and not written.
ghost use Rattle.std.specs.Prelude.{◌≡◌, ◌+◌, ◌≤◌, min};
ghost use Rattle.std.proofs.lemmas.List.Edits.{sets};
ghost use Rattle.fields.specs.Numbers.{ReadAs, fits, le_bytes};

use crate::ranges;

// The byte i after a place. Two numbers, so that their sum never wraps.
pub fn byte_at(s: &[u8], at: u64, i: u64) -> u64
    ensures { ReadAs 1 s.now (at + i) result }
{
    let left = (s.len() as u64).saturating_sub(at);
    if i < left {
        u64::from(s[(at + i) as usize])
    } else {
        0
    }
}

// How many bytes a number of this width has: a width above 8 counts as 8.
pub fn bytes_of(width: u64) -> u64
    ensures { result ≡ min width 8 }
{
    width.min(8)
}

// The number of `width` bytes at an offset, byte by byte, the last one first. The readers of two, four and eight bytes
// below fall back on it if the number passes the end of the slice.
pub fn read_le(s: &[u8], at: u64, width: u64) -> u64
    ensures { ReadAs (min width 8) s.now at result }
{
    let mut v = 0;
    for i in (0..bytes_of(width)).rev() {
        v = v * 256 + byte_at(s, at, i);
    }
    v
}

// Does a number fit `width` bytes?
pub fn is_within(v: u64, width: u64) -> bool
    ensures { result ≡ fits (min width 8) v }
{
    match 256u64.checked_pow(bytes_of(width) as u32) {
        Some(past) => v < past,
        None => true,
    }
}

// The number of N bytes at an offset. If they are all in the slice, the compiler makes one load of the copy.
fn read<const N: usize>(s: &[u8], at: u64) -> u64
    requires { N ≤ 8 }
    ensures { ReadAs N s.now at result }
{
    if !ranges::within(s.len() as u64, at, N as u64) {
        return read_le(s, at, N as u64);
    }
    let from = at as usize;
    let mut bytes = [0; 8];
    bytes[..N].copy_from_slice(&s[from..from + N]);
    u64::from_le_bytes(bytes)
}

// The three widths that images have: `read` itself has a `requires`, which no public function may have.
pub fn read_u16(s: &[u8], at: u64) -> u64
    ensures { ReadAs 2 s.now at result }
{
    read::<2>(s, at)
}

pub fn read_u32(s: &[u8], at: u64) -> u64
    ensures { ReadAs 4 s.now at result }
{
    read::<4>(s, at)
}

pub fn read_u64(s: &[u8], at: u64) -> u64
    ensures { ReadAs 8 s.now at result }
{
    read::<8>(s, at)
}

// Writes the `width` low bytes of a number at a place, the least first, as far as the slice goes. Any width is allowed,
// so it is not `to_le_bytes`.
pub fn put_le(s: &mut [u8], at: u64, width: u64, v: u64)
    ensures { s.new ≡ sets s.old at (le_bytes width v) }
{
    let end = ranges::sum_up_to(s.len() as u64, at, width);
    let mut rest = v;
    for p in at..end {
        s[p as usize] = (rest % 256) as u8;
        rest /= 256;
    }
}
