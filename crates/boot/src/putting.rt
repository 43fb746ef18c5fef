// A blob alone: a ramdisk or a device tree, for callers that put the pieces into guest memory one by one.
ghost use Rattle.std.specs.Prelude.{◌≡◌};
ghost use Rattle.answers.specs.Tests.{pass, asked_all};
ghost use Rattle.boot.specs.Putting.{put_tests, Puts};

use answers::Refusal;
use guest::{GuestAddress, ImagePlace, Map, Memory, copying, lent, room};

fn check(memory: &Memory, address: GuestAddress, n: u64) -> Result<(), Refusal>
    ensures { result ≡ asked_all pass (put_tests memory.now address.0 n) }
{
    lent::ask_memory(memory)?;
    answers::require(room::room_for(memory, address, n), Refusal::NoRoom)
}

// Puts bytes at an address: all of them, in one range of guest memory, or nothing.
pub fn put(guest: &mut [u8], map: Map, address: GuestAddress, bytes: &[u8]) -> Result<(), Refusal>
    ensures { Puts address.0 bytes.now map guest.old result guest.new }
{
    let n = bytes.len() as u64;
    check(&Memory::of(guest, map), address, n)?;
    copying::copy_image(guest, address, bytes, ImagePlace(0), n);
    Ok(())
}
