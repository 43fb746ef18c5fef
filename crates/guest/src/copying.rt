// Image bytes copied into guest memory.
ghost use Rattle.std.specs.Prelude.{◌≡◌, min};
ghost use Rattle.guest.specs.Stream.{bytes_at, stream_at, pour};

use crate::{GuestAddress, ImagePlace};
use fields::copying;

// A number, no further than a length.
fn clipped(n: u64, len: usize) -> usize
    ensures { result ≡ min n len }
{
    (n as usize).min(len)
}

// Copies n image bytes from a place to an address, as far as the image and guest memory go. The copy gets only the part
// of guest memory that begins at the address.
pub fn copy_image(guest: &mut [u8], address: GuestAddress, image: &[u8], place: ImagePlace, n: u64)
    ensures { guest.new ≡ pour (stream_at address.0 (bytes_at image.now place.0 n)) guest.old }
{
    let addr = clipped(address.0, guest.len());
    let from = clipped(place.0, image.len());
    let to = from + clipped(n, image.len() - from);
    copying::copy(&mut guest[addr..], &image[from..to]);
}
