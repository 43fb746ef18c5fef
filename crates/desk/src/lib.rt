// A job of the desk program: an image, with or without a line, after a table of contents. The image is loaded into
// 16,384 zero bytes, the line is put at the kernel's end, and a text says what came of it.
#![tactic(auto, unfolding(answers::specs::Pick::pick, answers::specs::Tests::asked, crate::specs::Table::row_of, crate::specs::Table::is_image, crate::specs::Table::count_good, crate::specs::Table::kinds_good, crate::specs::Table::one_placed, crate::specs::Table::two_placed, crate::specs::Table::places_good, crate::specs::Table::image_row, crate::specs::Table::line_row, crate::specs::Table::has_line, crate::specs::Work::image_format, crate::specs::Printing::pvh_text, crate::specs::Printing::pvh_line, crate::specs::Printing::answer_text))]

ghost use Rattle.std.specs.Prelude.{◌≡◌, length};
ghost use Rattle.guest.specs.Loading.{Loads};
ghost use Rattle.guest.specs.Room.{whole_of};
ghost use Rattle.desk.specs.Printing.{printed, output_of};
ghost use Rattle.desk.specs.Work.{guest_size, image_format, image_plan, BodiesLoad, Works};

use answers::Refusal;
use guest::{KernelLoaderResult, maps};
use loads::{Format, Options};

mod lines;
mod table;
mod telling;

// The bytes of guest memory that a job has.
const GUEST: usize = 16384;

// The text that a job prints, at the front of its bytes; the rest of them are 0.
// Bytes with a length beside them, since there is no heap.
#[derive(Clone, Copy)]
pub struct Output {
    pub bytes: [u8; 80],
    pub length: usize,
}

// The format of an image of kind 1, ELF, or of another kind, bzImage. It is no `TryFrom`, since every number has a
// format (`image_format`), and no `From`, since `u64` and `Format` are of other crates.
fn format_of(kind: u64) -> Format
    ensures { result ≡ image_format kind }
{
    if kind == 1 {
        Format::Elf
    } else {
        Format::BzImage
    }
}

// Loads an image without an offset and without a start of high memory.
fn load_image(guest: &mut [u8], kind: u64, image: &[u8]) -> Result<KernelLoaderResult, Refusal>
    ensures { Loads (image_plan kind image.now (whole_of (length guest.old))) guest.old result guest.new }
{
    let map = maps::whole(guest.len() as u64);
    let options = Options {
        format: format_of(kind),
        kernel_offset: None,
        highmem_start: None,
    };
    loads::load(guest, map, image, options)
}

// The bodies of a job that is good: the image is loaded, and then the line, if there is one, is put at the kernel's
// end.
fn load_bodies(guest: &mut [u8], job: &[u8]) -> Result<KernelLoaderResult, Refusal>
    ensures { BodiesLoad job.now guest.old result guest.new }
{
    let (image, line) = table::rows(job);
    let kernel = load_image(guest, image.kind, table::body(job, image))?;
    if table::has_line(job) {
        lines::put(guest, kernel.kernel_end, table::body(job, line))?;
    }
    Ok(kernel)
}

// Does a job over a caller's bytes. They are cleared first; a job that is not good leaves them as they were.
pub fn work(guest: &mut [u8], job: &[u8]) -> Result<KernelLoaderResult, Refusal>
    ensures { Works job.now guest.old result guest.new }
{
    table::check(job)?;
    guest.fill(0);
    load_bodies(guest, job)
}

// Does a job over zero bytes of its own, and returns the text that says what came of it.
pub fn do_job(job: &[u8]) -> Output
    ensures { result ≡ output_of (printed job.now guest_size) }
{
    let mut guest = [0u8; GUEST];
    let answer = work(&mut guest, job);
    let (image, _) = table::rows(job);
    telling::tell(format_of(image.kind), answer)
}
