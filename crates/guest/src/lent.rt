// The image and guest memory are checked once, here, before each loader's own tests.
ghost use Rattle.std.specs.Prelude.{◌≡◌};
ghost use Rattle.answers.specs.Tests.{pass, asked_all};
ghost use Rattle.guest.specs.Lent.{memory_tests, lent_tests};

use crate::{Memory, maps, sizes};
use answers::Refusal;

// Guest memory: its size, then its map.
pub fn ask_memory(memory: &Memory) -> Result<(), Refusal>
    ensures { result ≡ asked_all pass (memory_tests memory.now) }
{
    answers::require(sizes::is_allowed(memory.size), Refusal::SliceTooLong)?;
    answers::require(maps::is_good(memory.size, &memory.map), Refusal::BadMap)
}

// An image of this length, then guest memory.
pub fn ask(image_len: u64, memory: &Memory) -> Result<(), Refusal>
    ensures { result ≡ asked_all pass (lent_tests image_len memory.now) }
{
    answers::require(sizes::is_allowed(image_len), Refusal::SliceTooLong)?;
    ask_memory(memory)
}
