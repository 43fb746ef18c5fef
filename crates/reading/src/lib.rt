// A reader that keeps the image and its place together. Its methods are thin: the work is done by functions over a
// slice and a place. Code that reads by `notes` needs no reader of its own.
#![tactic(auto, unfolding(answers::specs::Pick::pick, answers::specs::Tests::asked))]

ghost use Rattle.std.specs.Prelude.{◌≡◌};
ghost use Rattle.reading.specs.Readers.{reader_at, Takes};

use guest::ImagePlace;

pub mod notes;
mod places;

#[derive(Clone, Copy)]
pub struct Reader<'a> {
    pub image: &'a [u8],
    pub at: ImagePlace,
}

// A number that was taken, and the reader past it.
#[derive(Clone, Copy)]
pub struct Taken<'a> {
    pub value: u64,
    pub rest: Reader<'a>,
}

// The twelve bytes before a note's name: the sizes of its name and of its descriptor, and its type, each a number of
// four bytes.
#[derive(Clone, Copy)]
pub struct NoteHeader {
    pub n_namesz: u64,
    pub n_descsz: u64,
    pub n_type: u64,
}

impl<'a> Reader<'a> {
    pub fn new(image: &'a [u8], at: ImagePlace) -> Reader<'a>
        ensures { result ≡ reader_at image.entry at }
    {
        Reader { image, at }
    }

    // Takes the number of `width` bytes at the reader's place; a width above 8 counts as 8.
    pub fn take(self, width: u64) -> Taken<'a>
        ensures { Takes self.entry width result }
    {
        Taken {
            value: places::number_at(self.image, self.at, width),
            rest: Reader {
                at: places::place_past(self.at, width),
                ..self
            },
        }
    }
}
