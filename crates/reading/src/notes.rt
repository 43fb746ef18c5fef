// A note's header, read field after field.
ghost use Rattle.std.specs.Prelude.{◌≡◌};
ghost use Rattle.reading.specs.Notes.{note_header_of};

use crate::{NoteHeader, Reader};
use guest::ImagePlace;

// The header at a place. Bytes past the image count as 0.
pub fn read_note_header(image: &[u8], at: ImagePlace) -> NoteHeader
    ensures { result ≡ note_header_of image.now at.0 }
{
    let name = Reader::new(image, at).take(4);
    let desc = name.rest.take(4);
    let kind = desc.rest.take(4);
    NoteHeader {
        n_namesz: name.value,
        n_descsz: desc.value,
        n_type: kind.value,
    }
}
