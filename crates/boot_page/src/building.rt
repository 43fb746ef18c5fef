// The tests of a page that is to be built, and what is written into it.
ghost use Rattle.std.specs.Prelude.{◌≡◌, length};
ghost use Rattle.answers.specs.Tests.{pass, asked_all};
ghost use Rattle.boot_page.specs.Building.{size_tests, tests, put_parts, header_parts};
ghost use Rattle.boot_page.specs.Building.{address_parts, map_parts, filled};

use crate::{Addresses, map, places};
use answers::Refusal;
use fields::{copying, numbers, rows};

// The tests of sizes: the page's own, whether the list is one of rows, and how many there are.
fn check_sizes(page_len: usize, list: &[u64]) -> Result<(), Refusal>
    ensures { result ≡ asked_all pass (size_tests page_len list.now) }
{
    answers::require(page_len == places::PAGE, Refusal::BadPageSize)?;
    answers::require(rows::are_rows(&map::WIDTHS, list), Refusal::BadList)?;
    answers::require(list.len() / 3 <= map::MOST, Refusal::TooManyRows)
}

// All tests. The rows are compared with each other only if there are not too many.
pub(crate) fn check(page_len: usize, list: &[u64]) -> Result<(), Refusal>
    ensures { result ≡ asked_all pass (tests page_len list.now) }
{
    check_sizes(page_len, list)?;
    answers::require(map::are_good(list), Refusal::BadRow)
}

// The setup header, as far as its 123 bytes go, and the loader type over it.
#[tactic(auto, unfolding(crate::specs::Building::put_parts), using(crate::proofs::BuildingLaws::header_front))]
fn put_header(page: &mut [u8], setup_header: &[u8])
    ensures { page.new ≡ put_parts (header_parts setup_header.now) page.old }
{
    let n = places::HEADER_SIZE.min(setup_header.len());
    copying::put(page, places::SETUP_HEADER, &setup_header[..n]);
    numbers::put_le(page, places::LOADER_TYPE, 1, places::UNDEFINED_LOADER);
}

#[tactic(auto, unfolding(crate::specs::Building::put_parts))]
fn put_addresses(page: &mut [u8], addresses: Addresses)
    ensures { page.new ≡ put_parts (address_parts addresses) page.old }
{
    numbers::put_le(
        page,
        places::COMMAND_LINE,
        4,
        u64::from(addresses.command_line),
    );
    numbers::put_le(page, places::RAMDISK, 4, u64::from(addresses.ramdisk));
    numbers::put_le(
        page,
        places::RAMDISK_SIZE,
        4,
        u64::from(addresses.ramdisk_size),
    );
}

// How many rows there are, and the rows.
#[tactic(auto, unfolding(crate::specs::Building::put_parts))]
fn put_map(page: &mut [u8], list: &[u64])
    ensures { page.new ≡ put_parts (map_parts list.now) page.old }
{
    numbers::put_le(page, places::COUNT, 1, (list.len() / 3) as u64);
    rows::put_rows(page, places::ROWS, &map::WIDTHS, list);
}

// Fills a page, as far as it goes.
#[tactic(auto, unfolding(crate::specs::Building::put_parts))]
pub(crate) fn fill(page: &mut [u8], setup_header: &[u8], addresses: Addresses, list: &[u64])
    ensures { page.new ≡ filled setup_header.now addresses list.now (length page.old) }
{
    copying::clear(page);
    put_header(page, setup_header);
    put_addresses(page, addresses);
    put_map(page, list);
}
