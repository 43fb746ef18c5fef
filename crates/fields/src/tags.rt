// Fixed byte strings, compared at a place of a slice.
ghost use Rattle.std.specs.Prelude.{◌≡◌};
ghost use Rattle.fields.specs.Tags.{tag_at};

use crate::numbers;

// Do the bytes at a place begin with those of the tag? A byte past the end is 0, so it is not `starts_with` of a part.
pub fn is_tag(s: &[u8], at: u64, tag: &[u8]) -> bool
    ensures { result ≡ tag_at tag.now s.now at }
{
    tag.iter().enumerate().all(|(i, b)| numbers::byte_at(s, at, i as u64) == u64::from(*b))
}
