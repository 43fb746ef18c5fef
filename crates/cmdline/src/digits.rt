// Numbers as digits. `spell` and `digit` are not `Display`: it writes into a `fmt::Write`, and the library has none
// over a `&mut [u8]` that stores as far as it goes, as `Stored` promises. `device::text` is made of these for that
// reason.
ghost use Rattle.std.specs.Prelude.{◌≡◌, ◌≤◌, ◌<◌, ◌^◌, length, drop};
ghost use Rattle.cmdline.specs.Digits.{digit, digits, decimal};
ghost use Rattle.slugs.specs.Stored.{Stored};

use slugs::buffers;

fn digit(n: u64) -> u8
    requires { n < 16 }
    ensures { result ≡ digit n }
{
    if n < 10 {
        b'0' + n as u8
    } else {
        b'a' - 10 + n as u8
    }
}

// The digits of n, at the end of the array; the place of the first.
fn spell(d: &mut [u8; 20], base: u64, n: u64) -> usize
    requires { (length d.old ≡ 20) × (10 ≤ base) × (base ≤ 16) × (n < base ^ 20) }
    ensures { (result ≤ 20) × (length d.new ≡ 20) × (drop result d.new ≡ digits base n) }
{
    // How many digits there are is known only after the last, so a loop over the places would need a way out too.
    let mut i = 20;
    let mut x = n;
    while base <= x {
        i -= 1;
        d[i] = digit(x % base);
        x /= base;
    }
    i -= 1;
    d[i] = digit(x);
    i
}

// The digits of n, put from a place on; the place after them.
pub(crate) fn put_number(d: &mut [u8], at: usize, base: u64, n: u64) -> usize
    requires { (10 ≤ base) × (base ≤ 16) × (n < base ^ 20) }
    ensures { Stored d.old at (digits base n) d.new result }
{
    let mut spelled = [0u8; 20];
    let from = spell(&mut spelled, base, n);
    buffers::put(d, at, &spelled[from..])
}

// The decimal digits of n, put from a place on; the place after them.
pub fn put_decimal(d: &mut [u8], at: usize, n: u64) -> usize
    ensures { Stored d.old at (decimal n) d.new result }
{
    put_number(d, at, 10, n)
}
