// How long an image and guest memory may be.
ghost use Rattle.std.specs.Prelude.{◌≡◌};
ghost use Rattle.guest.specs.Sizes.{allowed};

// The longest image and the longest guest memory, 2^40 bytes.
pub const LONGEST: u64 = 0x100_0000_0000;

pub fn is_allowed(len: u64) -> bool
    ensures { result ≡ allowed len }
{
    len <= LONGEST
}
