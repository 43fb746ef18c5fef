// Numbers of a list, in which a C caller keeps a state, by their index. Past its end a number is read as 0, and not
// written.
ghost use Rattle.std.specs.Prelude.{◌≡◌, ◌+◌};
ghost use Rattle.std.proofs.lemmas.List.Edits.{sets};
ghost use Rattle.capi.specs.Saved.{numbers_from};

use guest::maps;

// Sixteen numbers from an index on. The list may be too short, so that its slice of sixteen may not be there to copy.
pub(crate) fn sixteen(numbers: &[u64], from: u32) -> [u64; 16]
    ensures { result ≡ numbers_from 16 numbers.now from }
{
    let mut taken = [0; 16];
    for (i, slot) in taken.iter_mut().enumerate() {
        *slot = maps::number_at(numbers, from as usize + i);
    }
    taken
}

// Writes numbers from an index on, as far as the list goes. Not `fields::copying::put`, which is over bytes and copies
// them in blocks.
pub fn put(numbers: &mut [u64], from: usize, values: &[u64])
    ensures { numbers.new ≡ sets numbers.old from values.now }
{
    let from = from.min(numbers.len());
    let n = values.len().min(numbers.len() - from);
    numbers[from..from + n].copy_from_slice(&values[..n]);
}
