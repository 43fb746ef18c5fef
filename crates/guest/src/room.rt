// Room in guest memory.
ghost use Rattle.std.specs.Prelude.{◌≡◌};
ghost use Rattle.guest.specs.Room.{room, room_for, same_memory};

use crate::{GuestAddress, Memory, maps};
use fields::ranges;

// Do n bytes at an address lie in guest memory, in one of its ranges?
#[tactic(auto, unfolding(crate::specs::Room::room))]
pub fn has_room(memory: &Memory, address: GuestAddress, n: u64) -> bool
    ensures { result ≡ room memory.now address.0 n }
{
    ranges::within(memory.size, address.0, n) && maps::in_map(&memory.map, address.0, n)
}

// The same for a piece that may be empty: 0 bytes have room at every address.
#[tactic(auto, unfolding(crate::specs::Room::room_for, answers::specs::Pick::pick))]
pub fn room_for(memory: &Memory, address: GuestAddress, n: u64) -> bool
    ensures { result ≡ room_for memory.now address.0 n }
{
    n == 0 || has_room(memory, address, n)
}

// Are two memories the same? Not a derived `==`, since `maps::same` is none.
#[tactic(auto, unfolding(crate::specs::Room::same_memory))]
pub fn is_same(a: &Memory, b: &Memory) -> bool
    ensures { result ≡ same_memory a.now b.now }
{
    a.size == b.size && maps::same(&a.map, &b.map)
}
