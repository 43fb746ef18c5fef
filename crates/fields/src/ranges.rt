// Sums of a place and a size, as whole numbers: they never wrap.
ghost use Rattle.std.specs.Prelude.{◌≡◌, ◌+◌, min};
ghost use Rattle.fields.specs.Ranges.{lies_within, fits64, apart};

// Do n bytes from a place lie within a length?
pub fn within(len: u64, at: u64, n: u64) -> bool
    ensures { result ≡ lies_within len at n }
{
    if len < at {
        return false;
    }
    n <= len - at
}

// Is a sum below 2^64?
pub fn sum_fits(a: u64, b: u64) -> bool
    ensures { result ≡ fits64 a b }
{
    a.checked_add(b).is_some()
}

// A sum, at most `most`.
pub fn sum_up_to(most: u64, a: u64, b: u64) -> u64
    ensures { result ≡ min (a + b) most }
{
    a.saturating_add(b).min(most)
}

// Have the n addresses from a on and the m from b on none in common? No sum is formed: if they have one in common, the
// later start is among both.
pub fn are_apart(a: u64, n: u64, b: u64, m: u64) -> bool
    ensures { result ≡ apart a n b m }
{
    if a < b {
        n <= b - a || m == 0
    } else {
        m <= a - b || n == 0
    }
}
