// Insertions into a line in place: the caller's buffer holds the text that is appended to; the lengths of both texts
// and the capacity are given. Everything is checked first, the room in the buffer last; then only the new text is
// written. A refused insertion writes nothing. An accepted one returns the length of the text after it.
//
// `insert_str` and `insert_init_args` are two names of the Rust library that this one follows, one for each text; the
// body of both is `append_slug`. `insert_multiple` takes its values as the C function does: one text, and where each
// value ends.
ghost use Rattle.std.specs.Prelude.{min, ◌≤◌};
ghost use Rattle.cmdline.specs.Limit.{limit};
ghost use Rattle.cmdline.specs.InPlace.{Appends, clamped};
ghost use Rattle.cmdline.specs.InPlace.{slug_append, str_append, pair_append, list_append, device_append, init_append};

use crate::device;
use crate::sizes::{self, Lengths, Room};
use answers::Refusal;
use guest::GuestAddress;
use slugs::{buffers, bytes, keys, lists, trimming, values};

// A slug, after the text that the room is for.
fn append_slug(buffer: &mut [u8], room: Room, slug: &[u8]) -> Result<usize, Refusal>
    requires { room.text ≤ limit }
    ensures { Appends (slug_append room.size room.capacity slug.now) buffer.old room.text result buffer.new }
{
    let s = trimming::trimmed(slug);
    answers::require(bytes::all_printable(s), Refusal::InvalidAscii)?;
    room.check(buffer.len(), s.len())?;
    Ok(buffers::put_after(buffer, room.text, s))
}

// A slug, after the boot text.
pub fn insert_str(boot: &mut [u8], lengths: Lengths, slug: &[u8]) -> Result<usize, Refusal>
    ensures { Appends (clamped str_append lengths slug.now) boot.old (min lengths.boot_len limit) result boot.new }
{
    append_slug(boot, lengths.boot_room(), slug)
}

// A key, an equals sign and a value, after the boot text.
pub fn insert(boot: &mut [u8], lengths: Lengths, key: &[u8], value: &[u8]) -> Result<usize, Refusal>
    ensures { Appends (clamped pair_append lengths key.now value.now) boot.old (min lengths.boot_len limit)
        result boot.new }
{
    keys::check(key)?;
    values::check(value)?;
    let room = lengths.boot_room();
    room.check(
        boot.len(),
        sizes::sum(sizes::sum(key.len(), 1), value.len()),
    )?;
    Ok(buffers::put_pair(boot, room.text, key, value))
}

// A key, an equals sign and values joined by commas, after the boot text.
pub fn insert_multiple(
    boot: &mut [u8],
    lengths: Lengths,
    key: &[u8],
    values: &[u8],
    ends: &[usize],
) -> Result<usize, Refusal>
    ensures { Appends (clamped list_append lengths key.now values.now ends.now) boot.old (min lengths.boot_len limit)
        result boot.new }
{
    answers::require(lists::is_list(ends, values.len()), Refusal::BadList)?;
    keys::check(key)?;
    answers::require(0 < ends.len(), Refusal::MissingVal)?;
    lists::check(values, ends)?;
    let room = lengths.boot_room();
    room.check(
        boot.len(),
        sizes::sum(sizes::sum(key.len(), ends.len()), values.len()),
    )?;
    Ok(lists::put_list(boot, room.text, key, values, ends))
}

// The text of a virtio device, after the boot text.
pub fn add_virtio_mmio_device(
    boot: &mut [u8],
    lengths: Lengths,
    size: u64,
    baseaddr: GuestAddress,
    irq: u32,
    id: Option<u32>,
) -> Result<usize, Refusal>
    ensures { Appends (clamped device_append lengths size baseaddr.0 irq id) boot.old (min lengths.boot_len limit)
        result boot.new }
{
    answers::require(size != 0, Refusal::MmioSize)?;
    let mut text = [0u8; 80];
    let n = device::text(&mut text, size, baseaddr.0, irq, id);
    insert_str(boot, lengths, &text[..n])
}

// A slug, after the init text.
pub fn insert_init_args(init: &mut [u8], lengths: Lengths, slug: &[u8]) -> Result<usize, Refusal>
    ensures { Appends (clamped init_append lengths slug.now) init.old (min lengths.init_len limit) result init.new }
{
    append_slug(init, lengths.init_room(), slug)
}
