// The walk over the notes of an ELF image.
ghost use Rattle.elf.specs.Load.{note_number, note_values};
ghost use Rattle.capi.specs.Loads.{NoteCall};
ghost use Rattle.capi.specs.Values.{Tells};

use crate::{places, results};
use answers::Refusal;
use elf::ElfNote;
use guest::ImagePlace;

// The number of what a note walk returns; its values into `out`.
fn put_note(out: &mut [u64], walked: Result<ElfNote, Refusal>) -> u32
    ensures { Tells (note_number walked) (note_values walked) out.old result out.new }
{
    match walked {
        Ok(note) => {
            let [code, address, place, size] = results::pvh_numbers(note.pvh);
            places::put(out, 0, &[code, address, note.headers, place, size]);
            0
        }
        Err(refusal) => u32::from(refusal),
    }
}

// The PVH entry that the notes of p_filesz bytes at p_offset give. `note` has 5 places: PVH and its address as for a
// load, how many note headers were read, and the descriptor's offset and size.
#[unsafe(no_mangle)]
pub extern "C" fn rekusoyen_raw_elf_note(
    image: &[u8],
    p_offset: u64,
    p_filesz: u64,
    note: &mut [u64],
) -> u32
    ensures { NoteCall image.now p_offset p_filesz note.old result note.new }
{
    if note.len() != 5 {
        return u32::from(Refusal::NoRoom);
    }
    let walked = elf::parse_elf_note(image, ImagePlace(p_offset), p_filesz);
    put_note(note, walked)
}
