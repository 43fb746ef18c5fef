// What is in a page.
ghost use Rattle.std.specs.Prelude.{◌≡◌};
ghost use Rattle.answers.specs.Tests.{pass, asked_all};
ghost use Rattle.bzimage.specs.Header.{header_read};
ghost use Rattle.boot_page.specs.Reading.{read_tests, fields_in, addresses_in};

use crate::{Addresses, Page, map, places};
use answers::Refusal;
use fields::{copying, numbers};

// The tests of a page that is read.
pub(crate) fn check(page: &[u8]) -> Result<(), Refusal>
    ensures { result ≡ asked_all pass (read_tests page.now) }
{
    let count = numbers::byte_at(page, places::COUNT, 0);
    answers::require(page.len() == places::PAGE, Refusal::BadPageSize)?;
    answers::require(count <= map::MOST as u64, Refusal::TooManyRows)
}

fn setup_header(page: &[u8]) -> [u8; 123]
    ensures { result ≡ header_read page.now }
{
    let mut header = [0u8; 123];
    let from = (places::SETUP_HEADER as usize).min(page.len());
    copying::copy(&mut header, &page[from..]);
    header
}

#[tactic(auto, unfolding(crate::specs::Reading::addresses_in))]
fn addresses(page: &[u8]) -> Addresses
    ensures { result ≡ addresses_in page.now }
{
    Addresses {
        command_line: numbers::read_u32(page, places::COMMAND_LINE) as u32,
        ramdisk: numbers::read_u32(page, places::RAMDISK) as u32,
        ramdisk_size: numbers::read_u32(page, places::RAMDISK_SIZE) as u32,
    }
}

// The count of rows, the addresses and the setup header.
#[tactic(auto, unfolding(crate::specs::Reading::fields_in))]
pub(crate) fn fields(page: &[u8]) -> Page
    ensures { result ≡ fields_in page.now }
{
    Page {
        rows: numbers::byte_at(page, places::COUNT, 0),
        addresses: addresses(page),
        setup_header: setup_header(page),
    }
}
