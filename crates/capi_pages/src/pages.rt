// The boot page, built and read. Rows of a memory map are lists of numbers, as C passes them.
ghost use Rattle.std.specs.Prelude.{◌≡◌};
ghost use Rattle.capi_pages.specs.Pages.{addresses_of, read_sized, PageTells, PageBuilds, PageReads};

use answers::Refusal;
use boot_page::{Addresses, Page, map};
use capi::{places, results};
use fields::copying;

// How many numbers the rows of a full page have.
const ROW_NUMBERS: usize = 3 * map::MOST;

// The number of what reading a page returns; its values into `out`, and the setup header into `header`.
fn put_page(out: &mut [u64], header: &mut [u8], read: Result<Page, Refusal>) -> u32
    ensures { PageTells read out.old header.old result out.new header.new }
{
    match read {
        Ok(page) => {
            let addresses = page.addresses;
            let values = [
                page.rows,
                u64::from(addresses.command_line),
                u64::from(addresses.ramdisk),
                u64::from(addresses.ramdisk_size),
            ];
            places::put(out, 0, &values);
            copying::copy(header, &page.setup_header);
            0
        }
        Err(refusal) => u32::from(refusal),
    }
}

fn are_sized(out: usize, rows: usize, header: usize) -> bool
    ensures { result ≡ read_sized out rows header }
{
    out == 4 && rows == ROW_NUMBERS && header == 123
}

// Builds the boot page of 4,096 bytes: the 123 bytes of the setup header, the addresses, and the rows of the memory
// map, three numbers each (address, size, type). A refusal leaves the page as it was.
#[unsafe(no_mangle)]
pub extern "C" fn rekusoyen_page_build(
    page: &mut [u8],
    header: &[u8],
    command_line: u32,
    ramdisk: u32,
    ramdisk_size: u32,
    rows: &[u64],
) -> u32
    ensures { PageBuilds header.now (addresses_of command_line ramdisk ramdisk_size) rows.now page.old result page.new }
{
    if header.len() != 123 {
        return u32::from(Refusal::NoRoom);
    }
    let addresses = Addresses {
        command_line,
        ramdisk,
        ramdisk_size,
    };
    results::check_number(boot_page::build(page, header, addresses, rows))
}

// Reads a boot page, no matter who wrote it. `out` has 4 places: how many rows, the command line's address, the
// ramdisk's address and size; `rows` has 384, of which those of the rows are written; `header` has the 123 bytes of the
// setup header.
#[unsafe(no_mangle)]
pub extern "C" fn rekusoyen_raw_page_read(
    page: &[u8],
    out: &mut [u64],
    rows: &mut [u64],
    header: &mut [u8],
) -> u32
    ensures { PageReads page.now out.old rows.old header.old result out.new rows.new header.new }
{
    if !are_sized(out.len(), rows.len(), header.len()) {
        return u32::from(Refusal::NoRoom);
    }
    let read = boot_page::read(page, rows);
    put_page(out, header, read)
}
