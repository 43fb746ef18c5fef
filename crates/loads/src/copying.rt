// The bytes of a load, copied part after part: all of them, or the next so many.
ghost use Rattle.std.specs.Prelude.{◌≡◌};
ghost use Rattle.guest.specs.Loading.{Loads};
ghost use Rattle.guest.specs.Parts.{portion_of, parts_from};
ghost use Rattle.guest.specs.Stream.{pour};
ghost use Rattle.loads.specs.Formats.{count_of, part_of};
ghost use Rattle.loads.specs.Layout.{TableStands};
ghost use Rattle.loads.specs.Steps.{tested_part};

use crate::{Options, formats};
use guest::{Memory, Portion, copying, parts};

// All bytes of a load that is accepted: its parts have room, and are not tested again. It is not inlined, so that its
// frame is not part of that of `load`, which calls the plan.
#[inline(never)]
pub(crate) fn copy_all(guest: &mut [u8], image: &[u8], options: Options)
    requires { TableStands image.now options.format }
    ensures { guest.new ≡ pour (parts_from (count_of image.now options) image.now (part_of image.now options) 0)
        guest.old }
{
    let layout = formats::read_layout(image, options);
    let n = formats::count(image, options);
    for i in 0..n {
        let part = formats::part_in(image, layout, i);
        copying::copy_image(guest, part.address, image, part.place, part.size);
    }
}

// At most `budget` bytes, from part `at` on, `done` bytes of which are copied. The image may be another one than in
// an earlier step: every part is tested again.
pub(crate) fn copy_some(
    guest: &mut [u8],
    memory: &Memory,
    image: &[u8],
    options: Options,
    at: u64,
    done: u64,
    budget: u64,
) -> Portion
    ensures { Loads (portion_of (count_of image.now options) image.now (tested_part image.now memory.now options) at
        done budget) guest.old result guest.new }
{
    let n = formats::count(image, options);
    let mut q = done;
    let mut left = budget;
    for i in at..n {
        let part = formats::part(image, options, i);
        let copied = parts::copy_part(guest, memory, image, part, q, left);
        let passed = q.min(copied.size);
        let k = copied.count;
        if k < copied.size - passed {
            return Portion {
                at: i,
                done: passed + k,
                copied: budget,
                all: false,
            };
        }
        left -= k;
        q -= passed;
    }
    Portion {
        at: at.max(n),
        done: 0,
        copied: budget - left,
        all: true,
    }
}
