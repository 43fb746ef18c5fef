// One slice copied to the front of another or stored in it, and a slice of zeros.
ghost use Rattle.std.specs.Prelude.{◌≡◌, length, replicate};
ghost use Rattle.std.proofs.lemmas.List.Edits.{sets};

// How many bytes are copied at once: one copy of a whole kernel is slower in memory that is fresh from the system.
const BLOCK: usize = 2048;

// Copies src to the front of dst, as far as dst goes. A `while`: by `step_by`, which was tried, a block took twice the
// instructions. Inlined: most copies are short, and a call took twice as long as the copy of a setup header.
#[inline(always)]
pub fn copy(dst: &mut [u8], src: &[u8])
    ensures { dst.new ≡ sets dst.old 0 src.now }
{
    let n = src.len().min(dst.len());
    let mut i = 0;
    while i < n {
        let k = (n - i).min(BLOCK);
        dst[i..i + k].copy_from_slice(&src[i..i + k]);
        i += k;
    }
}

// Stores src from a place of dst on, as far as dst goes.
pub fn put(dst: &mut [u8], at: u64, src: &[u8])
    ensures { dst.new ≡ sets dst.old at src.now }
{
    let from = at.min(dst.len() as u64) as usize;
    copy(&mut dst[from..], src);
}

// Sets every byte to 0.
pub fn clear(dst: &mut [u8])
    ensures { dst.new ≡ replicate (length dst.old) 0 }
{
    dst.fill(0);
}
