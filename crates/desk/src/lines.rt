// The line of a job, read from its text and put at the kernel's end.
ghost use Rattle.std.specs.Prelude.{length};
ghost use Rattle.guest.specs.Loading.{Loads};
ghost use Rattle.guest.specs.Room.{whole_of};
ghost use Rattle.desk.specs.Work.{line_plan};

use answers::Refusal;
use cmdline::Cmdline;
use guest::{GuestAddress, maps};

// The capacity of the line.
const CAPACITY: usize = 4096;

// Puts the line of a text at an address.
pub(crate) fn put(guest: &mut [u8], at: GuestAddress, text: &[u8]) -> Result<(), Refusal>
    ensures { Loads (line_plan text.now (whole_of (length guest.old)) at.0) guest.old result guest.new }
{
    let line = Cmdline::try_from(text, CAPACITY)?;
    loader::load_cmdline(guest, maps::whole(guest.len() as u64), at, &line)
}
