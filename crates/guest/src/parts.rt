// Parts of the image, copied in portions.
ghost use Rattle.std.specs.Prelude.{◌≡◌, min, length};
ghost use Rattle.guest.specs.Parts.{kept_part, PartCopied};

use crate::{GuestAddress, ImagePlace, Memory, Part, copying, room};
use fields::ranges;

// The part if its bytes are in the image and have room, else one of no bytes.
#[tactic(auto, unfolding(crate::specs::Parts::kept_part, answers::specs::Pick::pick))]
pub fn kept(image_len: u64, memory: &Memory, part: Part) -> Part
    ensures { result ≡ kept_part image_len memory.now part }
{
    let in_image = ranges::within(image_len, part.place.0, part.size);
    if in_image && room::has_room(memory, part.address, part.size) {
        part
    } else {
        Part::default()
    }
}

// What was copied of a part: how many bytes it has, none if it was not kept, and how many were copied now.
#[derive(Clone, Copy)]
pub struct Copied {
    pub size: u64,
    pub count: u64,
}

// Copies the bytes of a part after the first `skip`, at most `budget`, if the part is in the image and has room.
pub fn copy_part(
    guest: &mut [u8],
    memory: &Memory,
    image: &[u8],
    part: Part,
    skip: u64,
    budget: u64,
) -> Copied
    ensures { PartCopied image.now (kept_part (length image.now) memory.now part) skip budget guest.old
        result.size result.count guest.new }
{
    let safe = kept(image.len() as u64, memory, part);
    let size = safe.size;
    let address = safe.address.0;
    let place = safe.place.0;
    let passed = skip.min(size);
    let n = budget.min(size - passed);
    copying::copy_image(
        guest,
        GuestAddress(address + passed),
        image,
        ImagePlace(place + passed),
        n,
    );
    Copied { size, count: n }
}
