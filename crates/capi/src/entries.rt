// Loads, plans and parts of every format, what an image is, and the setup header of a bzImage. Parameters that travel
// together and lists of rows are those of the C functions.
ghost use Rattle.std.specs.Prelude.{◌≡◌};
ghost use Rattle.answers.specs.Tests.{pass, asked_all};
ghost use Rattle.guest.specs.Maps.{map_of};
ghost use Rattle.loads.specs.Kinds.{kind_of};
ghost use Rattle.capi.specs.Loads.{call_gate, header_tests, header_gate, kind_number, memory_by};
ghost use Rattle.capi.specs.Loads.{LoadCall, PlanCall, PartCall, HeaderCall};
ghost use Rattle.capi.specs.Options.{options_of};

use crate::{options, places, results};
use answers::Refusal;
use fields::copying;
use guest::{GuestAddress, Memory, maps, parts, sizes};
use loads::formats;

// Loads an image into guest memory, whose map is start, size, start, size .. `kernel` has 6 places: the load address,
// the kernel's end, PVH (0 ignored, 1 not present, 2 present), the PVH address, and the offset and the size of the
// descriptor of the note that gives it.
#[unsafe(no_mangle)]
pub extern "C" fn rekusoyen_raw_load(
    guest: &mut [u8],
    map: &[u64],
    image: &[u8],
    format: u32,
    flags: u32,
    offset: u64,
    highmem: u64,
    kernel: &mut [u64],
) -> u32
    ensures { LoadCall (call_gate 6 kernel.old format) image.now (options_of format flags offset highmem) (map_of
        map.now) guest.old kernel.old result guest.new kernel.new }
{
    match options::of_call(kernel.len() == 6, format, flags, offset, highmem) {
        Err(refusal) => u32::from(refusal),
        Ok(options) => {
            let answer = loads::load(guest, maps::from_numbers(map), image, options);
            results::put_answer(kernel, answer)
        }
    }
}

// Guest memory of a size, whose map is start, size, start, size ..
pub fn memory_by(size: u64, map: &[u64]) -> Memory
    ensures { result ≡ memory_by size map.now }
{
    Memory {
        size,
        map: maps::from_numbers(map),
    }
}

// What that load answers over guest memory of this size with this map. `plan` has 7 places: the six of a load, then
// the number of parts.
#[unsafe(no_mangle)]
pub extern "C" fn rekusoyen_raw_plan(
    memory_size: u64,
    map: &[u64],
    image: &[u8],
    format: u32,
    flags: u32,
    offset: u64,
    highmem: u64,
    plan: &mut [u64],
) -> u32
    ensures { PlanCall (call_gate 7 plan.old format) image.now (memory_by memory_size map.now) (options_of format
        flags offset highmem) plan.old result plan.new }
{
    match options::of_call(plan.len() == 7, format, flags, offset, highmem) {
        Err(refusal) => u32::from(refusal),
        Ok(options) => {
            let answer = formats::plan(&memory_by(memory_size, map), image, options);
            results::put_plan(plan, answer, formats::count(image, options))
        }
    }
}

// A part of that load, by its number. `part` has 3 places: the guest address, the offset in the image and the size;
// all 0 if the part has no bytes, and from the number of parts on.
#[unsafe(no_mangle)]
pub extern "C" fn rekusoyen_raw_part(
    memory_size: u64,
    map: &[u64],
    image: &[u8],
    format: u32,
    flags: u32,
    offset: u64,
    index: u64,
    part: &mut [u64],
) -> u32
    ensures { PartCall (call_gate 3 part.old format) image.now (memory_by memory_size map.now) (options_of format
        flags offset 0) index part.old result part.new }
{
    match options::of_call(part.len() == 3, format, flags, offset, 0) {
        Err(refusal) => u32::from(refusal),
        Ok(options) => {
            let planned = formats::part(image, options, index);
            let kept = parts::kept(image.len() as u64, &memory_by(memory_size, map), planned);
            places::put(part, 0, &results::part_numbers(kept));
            0
        }
    }
}

// The number of the format whose magic number an image has, and 0 if it has none of them.
#[unsafe(no_mangle)]
pub extern "C" fn rekusoyen_kind(image: &[u8]) -> u32
    ensures { result ≡ kind_number (kind_of image.now) }
{
    match formats::kind_of(image) {
        Some(format) => options::format_code(format),
        None => 0,
    }
}

fn check_header(image_len: u64, header_len: usize) -> Result<(), Refusal>
    ensures { result ≡ asked_all pass (header_tests image_len header_len) }
{
    answers::require(header_len == 123, Refusal::NoRoom)?;
    answers::require(sizes::is_allowed(image_len), Refusal::SliceTooLong)
}

// The setup header of a bzImage that is loaded at an address, 123 bytes.
#[unsafe(no_mangle)]
pub extern "C" fn rekusoyen_setup_header(image: &[u8], load: u64, header: &mut [u8]) -> u32
    ensures { HeaderCall (header_gate image.now header.old) image.now load header.old result header.new }
{
    if let Err(refusal) = check_header(image.len() as u64, header.len()) {
        return u32::from(refusal);
    }
    copying::copy(
        header,
        &bzimage::header::header_with(image, GuestAddress(load)),
    );
    0
}
