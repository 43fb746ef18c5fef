// The boot page: the 4,096-byte zero page of the Linux boot documents, built and read. Rows are one list of numbers, as
// the C function `rekusoyen_page_build` takes them. `plan` is named as in other crates, and follows those documents
// alone.
#![tactic(auto, unfolding(answers::specs::Pick::pick, answers::specs::Tests::asked))]

ghost use Rattle.std.specs.Prelude.{◌≡◌};
ghost use Rattle.boot_page.specs.Building.{gate_of, Builds};
ghost use Rattle.boot_page.specs.Places.{page_size};
ghost use Rattle.boot_page.specs.Reading.{Reads};

use answers::Refusal;

mod building;
pub mod map;
mod places;
mod reading;

// The command line's address, and the ramdisk's address and size: each a field of four bytes.
#[derive(Clone, Copy)]
pub struct Addresses {
    pub command_line: u32,
    pub ramdisk: u32,
    pub ramdisk_size: u32,
}

// What a page holds in addition to its rows: how many rows, the addresses, and the setup header.
#[derive(Clone, Copy)]
pub struct Page {
    pub rows: u64,
    pub addresses: Addresses,
    pub setup_header: [u8; 123],
}

// The checks of the rows of a page, without the page: if they pass, `build` builds a page of 4,096 bytes.
pub fn plan(rows: &[u64]) -> Result<(), Refusal>
    ensures { result ≡ gate_of page_size rows.now }
{
    building::check(places::PAGE, rows)
}

// Builds the page: all zero, then the setup header, of which a byte past its end counts as 0, then the loader type and
// the addresses over it, the count of rows and the rows. A row is three numbers: address, size and type. If it refuses,
// the page is as it was.
#[tactic(auto, unfolding(answers::specs::Pick::pick))]
pub fn build(
    page: &mut [u8],
    setup_header: &[u8],
    addresses: Addresses,
    rows: &[u64],
) -> Result<(), Refusal>
    ensures { Builds setup_header.now addresses rows.now page.old result page.new }
{
    building::check(page.len(), rows)?;
    building::fill(page, setup_header, addresses, rows);
    Ok(())
}

// Reads a page, no matter who wrote it: what it holds. The numbers of the rows go to the front of a list that has room
// for them; a shorter list gets as many as it has elements, and the count that is returned is still the page's. If it
// refuses, the list is as it was.
#[tactic(auto, unfolding(answers::specs::Pick::pick, crate::specs::Reading::read_by), using(crate::proofs::ReadingLaws::reads_open))]
pub fn read(page: &[u8], rows: &mut [u64]) -> Result<Page, Refusal>
    ensures { Reads page.now rows.old result rows.new }
{
    reading::check(page)?;
    map::read(rows, page);
    Ok(reading::fields(page))
}
