// What a caller needs who puts the pieces into guest memory by itself: the check of a line, room, and a blob.
ghost use Rattle.std.specs.Prelude.{◌≡◌, length};
ghost use Rattle.capi.specs.Loads.{memory_by};
ghost use Rattle.guest.specs.Maps.{map_of};
ghost use Rattle.start_info.specs.Answers.{gate_number};
ghost use Rattle.capi_boot.specs.Alone.{line_gate, room_number, PutCall};

use crate::calls;
use answers::Refusal;
use boot::{pieces, putting};
use capi::{entries, options, results};
use guest::{GuestAddress, maps, room};

// The format of a call, then the length of a line.
fn check_line(
    image: &[u8],
    format: u32,
    flags: u32,
    limit: u32,
    text_len: usize,
    init_len: usize,
) -> Result<(), Refusal>
    ensures { result ≡ line_gate image.now format flags limit text_len init_len }
{
    options::ask_format(u64::from(format))?;
    let options = options::options_of(format, flags, 0, 0);
    pieces::check_line(
        image,
        options,
        calls::limit_by(flags, limit),
        text_len,
        init_len,
    )
}

// Is a line no longer than the kernel takes? Bit 2 of the flags: a limit is given.
#[unsafe(no_mangle)]
pub extern "C" fn rekusoyen_line_check(
    image: &[u8],
    format: u32,
    flags: u32,
    limit: u32,
    text: &[u8],
    init: &[u8],
) -> u32
    ensures { result ≡ gate_number (line_gate image.now format flags limit (length text.now) (length init.now)) }
{
    results::check_number(check_line(image, format, flags, limit, text.len(), init.len()))
}

// 1 if so many bytes at an address lie in one range of guest memory, else 0; 0 bytes have room at every address.
#[unsafe(no_mangle)]
pub extern "C" fn rekusoyen_has_room(memory_size: u64, map: &[u64], address: u64, size: u64) -> u32
    ensures { result ≡ room_number (memory_by memory_size map.now) address size }
{
    let memory = entries::memory_by(memory_size, map);
    u32::from(room::room_for(&memory, GuestAddress(address), size))
}

// Puts a blob at an address, a ramdisk or a device tree. A refusal leaves guest memory as it was.
#[unsafe(no_mangle)]
pub extern "C" fn rekusoyen_put(guest: &mut [u8], map: &[u64], address: u64, bytes: &[u8]) -> u32
    ensures { PutCall (map_of map.now) address bytes.now guest.old result guest.new }
{
    results::check_number(putting::put(
        guest,
        maps::from_numbers(map),
        GuestAddress(address),
        bytes,
    ))
}
