// The results of a load, as numbers.
ghost use Rattle.std.specs.Prelude.{◌≡◌, ◌∷◌, []};
ghost use Rattle.answers.specs.Catalogue.{check_number};
ghost use Rattle.guest.specs.Answers.{pvh_code, pvh_address, pvh_place, pvh_size, answer_number, answer_values};
ghost use Rattle.capi.specs.Parts.{with_bytes, part_values, plan_values};
ghost use Rattle.capi.specs.Values.{kernel_numbers, Tells};

use crate::places;
use answers::Refusal;
use guest::{KernelLoaderResult, Part, PvhBootCapability};

// PVH as a number, the entry's address, and the offset and the size of the descriptor of the note that gives it.
pub(crate) fn pvh_numbers(pvh: PvhBootCapability) -> [u64; 4]
    ensures { result ≡ pvh_code pvh ∷ pvh_address pvh ∷ pvh_place pvh ∷ pvh_size pvh ∷ [] }
{
    match pvh {
        PvhBootCapability::PvhEntryIgnored => [0, 0, 0, 0],
        PvhBootCapability::PvhEntryNotPresent => [1, 0, 0, 0],
        PvhBootCapability::PvhEntryPresent(note) => [2, note.entry.0, note.place.0, note.size],
    }
}

// The six numbers of a kernel that is loaded.
pub fn kernel_numbers(kernel: KernelLoaderResult) -> [u64; 6]
    ensures { result ≡ kernel_numbers kernel }
{
    let [code, address, place, size] = pvh_numbers(kernel.pvh_boot_cap);
    [
        kernel.kernel_load.0,
        kernel.kernel_end.0,
        code,
        address,
        place,
        size,
    ]
}

// The number of what checks return, which C callers take: 0 if none refused.
pub fn check_number(checked: Result<(), Refusal>) -> u32
    ensures { result ≡ check_number checked }
{
    match checked {
        Ok(()) => 0,
        Err(refusal) => u32::from(refusal),
    }
}

// The number of a load's answer; its values into `out`.
pub(crate) fn put_answer(out: &mut [u64], answer: Result<KernelLoaderResult, Refusal>) -> u32
    ensures { Tells (answer_number answer) (answer_values answer) out.old result out.new }
{
    match answer {
        Ok(kernel) => {
            places::put(out, 0, &kernel_numbers(kernel));
            0
        }
        Err(refusal) => u32::from(refusal),
    }
}

// The same, and the number of its parts after the values, which only a plan has: one function of both would take an
// `Option` of it and match on it.
pub(crate) fn put_plan(
    out: &mut [u64],
    answer: Result<KernelLoaderResult, Refusal>,
    parts: u64,
) -> u32
    ensures { Tells (answer_number answer) (plan_values answer parts) out.old result out.new }
{
    match answer {
        Ok(kernel) => {
            places::put(out, 0, &kernel_numbers(kernel));
            places::put(out, 6, &[parts]);
            0
        }
        Err(refusal) => u32::from(refusal),
    }
}

// A part that has bytes; of one that has none all numbers are 0.
fn with_bytes(part: Part) -> Part
    ensures { result ≡ with_bytes part }
{
    if part.size == 0 {
        return Part::default();
    }
    part
}

// A part's three numbers.
pub(crate) fn part_numbers(part: Part) -> [u64; 3]
    ensures { result ≡ part_values part }
{
    let part = with_bytes(part);
    [part.address.0, part.place.0, part.size]
}
