// What a monitor links: the kernel command line under C names, in bytes of the caller. C passes values and their ends
// as two lists, and a map as a list of numbers. Each export matches on the `Result` of its tests: an inner function
// with `?` would take all of the export's parameters again.
#![tactic(auto, unfolding(answers::specs::Pick::pick, answers::specs::Tests::asked))]

ghost use Rattle.std.specs.Prelude.{◌≡◌};
ghost use Rattle.cmdline.specs.Insertion.{insert, insert_multiple, insert_str, insert_init_args};
ghost use Rattle.cmdline.specs.Device.{add_device};
ghost use Rattle.cmdline.specs.Making.{new, try_from};
ghost use Rattle.guest.specs.Maps.{map_of};
ghost use Rattle.capi_lines.specs.Lines.{text_in, the_boot, the_init, id_by, LineMakes, LineCalls, LineWrites};
ghost use Rattle.capi_lines.specs.Lines.{LinesCompare, LineLoadsFrom, plan_number};

use answers::Refusal;
use capi::{entries, results};
use cmdline::{in_place, writing};
use guest::{GuestAddress, maps};
use slugs::{splitting, trimming};

pub mod line_words;
mod lines;

// An empty line, over whatever the bytes held.
#[unsafe(no_mangle)]
pub extern "C" fn rekusoyen_line_new(line: &mut [u8], capacity: u64) -> u32
    ensures { LineMakes line.old (new capacity) result line.new }
{
    results::check_number(lines::make(line, capacity, b"", b""))
}

// A line from its text, over whatever the bytes held.
#[unsafe(no_mangle)]
pub extern "C" fn rekusoyen_line_try_from(line: &mut [u8], text: &[u8], capacity: u64) -> u32
    ensures { LineMakes line.old (try_from text.now capacity) result line.new }
{
    let at = splitting::split_at(text);
    let before = trimming::trimmed(&text[..at]);
    let after = trimming::trimmed(splitting::after(text, at));
    results::check_number(lines::make(line, capacity, before, after))
}

// A key, an equals sign and a value, after the boot text.
#[unsafe(no_mangle)]
pub extern "C" fn rekusoyen_line_insert(line: &mut [u8], key: &[u8], value: &[u8]) -> u32
    ensures { LineCalls the_boot line.old (insert (text_in line.old) key.now value.now) result line.new }
{
    match lines::read_header(line) {
        Err(refusal) => u32::from(refusal),
        Ok(lengths) => {
            let appended = in_place::insert(
                &mut line[lines::BOOT..lines::INIT],
                lengths,
                key,
                value,
            );
            lines::tell(line, lines::BOOTS, appended)
        }
    }
}

// A key, an equals sign and values joined by commas, after the boot text. The values are one after the other, and
// `ends` has the end of each.
#[unsafe(no_mangle)]
pub extern "C" fn rekusoyen_line_insert_multiple(
    line: &mut [u8],
    key: &[u8],
    values: &[u8],
    ends: &[usize],
) -> u32
    ensures { LineCalls the_boot line.old (insert_multiple (text_in line.old) key.now values.now ends.now) result
        line.new }
{
    match lines::read_header(line) {
        Err(refusal) => u32::from(refusal),
        Ok(lengths) => {
            let appended = in_place::insert_multiple(
                &mut line[lines::BOOT..lines::INIT],
                lengths,
                key,
                values,
                ends,
            );
            lines::tell(line, lines::BOOTS, appended)
        }
    }
}

// A slug, after the boot text.
#[unsafe(no_mangle)]
pub extern "C" fn rekusoyen_line_insert_str(line: &mut [u8], slug: &[u8]) -> u32
    ensures { LineCalls the_boot line.old (insert_str (text_in line.old) slug.now) result line.new }
{
    match lines::read_header(line) {
        Err(refusal) => u32::from(refusal),
        Ok(lengths) => {
            let appended = in_place::insert_str(&mut line[lines::BOOT..lines::INIT], lengths, slug);
            lines::tell(line, lines::BOOTS, appended)
        }
    }
}

// A slug, after the init text.
#[unsafe(no_mangle)]
pub extern "C" fn rekusoyen_line_insert_init_args(line: &mut [u8], slug: &[u8]) -> u32
    ensures { LineCalls the_init line.old (insert_init_args (text_in line.old) slug.now) result line.new }
{
    match lines::read_header(line) {
        Err(refusal) => u32::from(refusal),
        Ok(lengths) => {
            let appended = in_place::insert_init_args(
                &mut line[lines::INIT..lines::SIZE],
                lengths,
                slug,
            );
            lines::tell(line, lines::INITS, appended)
        }
    }
}

// The text of a virtio device, after the boot text. A has_id of 0: the device has no ID.
#[unsafe(no_mangle)]
pub extern "C" fn rekusoyen_line_add_virtio_mmio_device(
    line: &mut [u8],
    size: u64,
    address: u64,
    irq: u32,
    has_id: u32,
    id: u32,
) -> u32
    ensures { LineCalls the_boot line.old (add_device (text_in line.old) size address irq (id_by has_id id)) result
        line.new }
{
    let device_id = (has_id != 0).then_some(id);
    match lines::read_header(line) {
        Err(refusal) => u32::from(refusal),
        Ok(lengths) => {
            let appended = in_place::add_virtio_mmio_device(
                &mut line[lines::BOOT..lines::INIT],
                lengths,
                size,
                GuestAddress(address),
                irq,
                device_id,
            );
            lines::tell(line, lines::BOOTS, appended)
        }
    }
}

// The text of the line and its closing zero, written to the start of `out`; how many bytes, the zero counted, into
// the one place of `count`.
#[unsafe(no_mangle)]
pub extern "C" fn rekusoyen_raw_line_as_cstring(
    line: &[u8],
    out: &mut [u8],
    count: &mut [u64],
) -> u32
    ensures { LineWrites line.now out.old count.old result out.new count.new }
{
    if count.len() != 1 {
        return u32::from(Refusal::NoRoom);
    }
    match lines::read_header(line) {
        Err(refusal) => u32::from(refusal),
        Ok(lengths) => {
            let boot = lines::text_at(line, lines::BOOT, lengths.boot_len);
            let init = lines::text_at(line, lines::INIT, lengths.init_len);
            let written = writing::as_cstring(out, boot, init);
            lines::tell_written(count, written)
        }
    }
}

// Are two lines equal? 1 or 0 into the one place of `out`.
#[unsafe(no_mangle)]
pub extern "C" fn rekusoyen_raw_line_equal(a: &[u8], b: &[u8], out: &mut [u64]) -> u32
    ensures { LinesCompare a.now b.now out.old result out.new }
{
    if out.len() != 1 {
        return u32::from(Refusal::NoRoom);
    }
    match lines::read_header(a) {
        Err(refusal) => u32::from(refusal),
        Ok(first) => match lines::read_header(b) {
            Err(refusal) => u32::from(refusal),
            Ok(second) => {
                let boot = lines::text_at(a, lines::BOOT, first.boot_len);
                let init = lines::text_at(a, lines::INIT, first.init_len);
                let boot2 = lines::text_at(b, lines::BOOT, second.boot_len);
                let init2 = lines::text_at(b, lines::INIT, second.init_len);
                let same = writing::same_line(boot, init, boot2, init2);
                out[0] = u64::from(same);
                0
            }
        },
    }
}

// Writes the line and its zero into guest memory, at an address.
#[unsafe(no_mangle)]
pub extern "C" fn rekusoyen_line_load(
    guest: &mut [u8],
    map: &[u64],
    address: u64,
    line: &[u8],
) -> u32
    ensures { LineLoadsFrom line.now address (map_of map.now) guest.old result guest.new }
{
    match lines::read_header(line) {
        Err(refusal) => u32::from(refusal),
        Ok(lengths) => {
            let boot = lines::text_at(line, lines::BOOT, lengths.boot_len);
            let init = lines::text_at(line, lines::INIT, lengths.init_len);
            let answer = loader::load_texts(
                guest,
                maps::from_numbers(map),
                GuestAddress(address),
                boot,
                init,
            );
            results::check_number(answer)
        }
    }
}

// The answer of rekusoyen_line_load over guest memory of this size with this map, without that memory.
#[unsafe(no_mangle)]
pub extern "C" fn rekusoyen_line_plan(
    memory_size: u64,
    map: &[u64],
    address: u64,
    line: &[u8],
) -> u32
    ensures { result ≡ plan_number line.now memory_size (map_of map.now) address }
{
    match lines::read_header(line) {
        Err(refusal) => u32::from(refusal),
        Ok(lengths) => {
            let boot = lines::text_at(line, lines::BOOT, lengths.boot_len);
            let init = lines::text_at(line, lines::INIT, lengths.init_len);
            let memory = entries::memory_by(memory_size, map);
            let answer = loader::plan_texts(&memory, GuestAddress(address), boot, init);
            results::check_number(answer)
        }
    }
}
