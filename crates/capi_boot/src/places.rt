// Where a piece can go in guest memory. The two exports are two C functions, and their parameters those of C: lists of
// numbers for a map and for what is placed.
ghost use Rattle.capi.specs.Loads.{memory_by};
ghost use Rattle.placing.specs.Placing.{FirstFit, LastFit};
ghost use Rattle.capi_boot.specs.Places.{PlaceTells, PlaceCall};

use answers::Refusal;
use capi::entries;
use guest::GuestAddress;

// The number of what was found, NoRoom if there is none; the address into the one element of `out`.
fn put_place(out: &mut [u64], found: Option<GuestAddress>) -> u32
    ensures { PlaceTells found out.old result out.new }
{
    if out.len() != 1 {
        return u32::from(Refusal::NoRoom);
    }
    match found {
        Some(address) => {
            out[0] = address.0;
            0
        }
        None => u32::from(Refusal::NoRoom),
    }
}

// The lowest multiple of `align` from `low` on, whose bytes end at `high` at the latest, lie in one range of guest
// memory, and are apart from what is placed: start, size, start, size .. NoRoom if there is none. `address` has one
// element.
#[unsafe(no_mangle)]
pub extern "C" fn rekusoyen_raw_place(
    memory_size: u64,
    map: &[u64],
    placed: &[u64],
    low: u64,
    high: u64,
    align: u64,
    size: u64,
    address: &mut [u64],
) -> u32
    ensures { PlaceCall (FirstFit (memory_by memory_size map.now) placed.now low high align size) address.old result
        address.new }
{
    let memory = entries::memory_by(memory_size, map);
    let found = placing::place(&memory, placed, low, high, align, size);
    put_place(address, found)
}

// The highest such address.
#[unsafe(no_mangle)]
pub extern "C" fn rekusoyen_raw_place_high(
    memory_size: u64,
    map: &[u64],
    placed: &[u64],
    low: u64,
    high: u64,
    align: u64,
    size: u64,
    address: &mut [u64],
) -> u32
    ensures { PlaceCall (LastFit (memory_by memory_size map.now) placed.now low high align size) address.old result
        address.new }
{
    let memory = entries::memory_by(memory_size, map);
    let found = placing::place_high(&memory, placed, low, high, align, size);
    put_place(address, found)
}
