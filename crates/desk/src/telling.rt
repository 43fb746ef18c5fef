// The text that says what came of a job.
ghost use Rattle.std.specs.Prelude.{◌≡◌, [], ◌∷◌, ◌++◌, length};
ghost use Rattle.cmdline.specs.Digits.{decimal};
ghost use Rattle.slugs.specs.Stored.{Stored};
ghost use Rattle.desk.specs.Printing.{number_line, pvh_text, pvh_line, answer_text, output_of};

use crate::Output;
use answers::Refusal;
use cmdline::digits;
use guest::{KernelLoaderResult, PvhBootCapability};
use loads::Format;
use slugs::buffers;

// A word with its space, a number and a line feed, put from a place on; the place after them.
fn put_line(d: &mut [u8], at: usize, word: &[u8], n: u64) -> usize
    ensures { Stored d.old at (number_line word.now n) d.new result }
{
    let at = buffers::put(d, at, word);
    let at = digits::put_decimal(d, at, n);
    buffers::put(d, at, b"\n")
}

fn put_pvh_text(d: &mut [u8], at: usize, pvh: PvhBootCapability) -> usize
    ensures { Stored d.old at (pvh_text pvh) d.new result }
{
    match pvh {
        PvhBootCapability::PvhEntryIgnored => buffers::put(d, at, b"pvh ignored\n"),
        PvhBootCapability::PvhEntryNotPresent => buffers::put(d, at, b"pvh none\n"),
        PvhBootCapability::PvhEntryPresent(note) => put_line(d, at, b"pvh ", note.entry.0),
    }
}

// Only of an ELF image.
fn put_pvh(d: &mut [u8], at: usize, format: Format, pvh: PvhBootCapability) -> usize
    ensures { Stored d.old at (pvh_line format pvh) d.new result }
{
    match format {
        Format::Elf => put_pvh_text(d, at, pvh),
        Format::BzImage | Format::Arm64 => buffers::put(d, at, b""),
    }
}

// The whole text, at the front of d; the place after it.
fn put_answer(d: &mut [u8], format: Format, answer: Result<KernelLoaderResult, Refusal>) -> usize
    ensures { Stored d.old 0 (answer_text format answer) d.new result }
{
    match answer {
        Err(refusal) => put_line(d, 0, b"refused ", u64::from(u32::from(refusal))),
        Ok(kernel) => {
            let at = put_line(d, 0, b"load ", kernel.kernel_load.0);
            let at = put_line(d, at, b"end ", kernel.kernel_end.0);
            let pvh = kernel.pvh_boot_cap;
            put_pvh(d, at, format, pvh)
        }
    }
}

pub(crate) fn tell(format: Format, answer: Result<KernelLoaderResult, Refusal>) -> Output
    ensures { result ≡ output_of (answer_text format answer) }
{
    let mut bytes = [0u8; 80];
    let length = put_answer(&mut bytes, format, answer);
    Output { bytes, length }
}
