// The memory map: rows of an address, a size and a type, in any order. They are one list of numbers, as the C functions
// `rekusoyen_page_build` and `rekusoyen_raw_page_read` take them.
ghost use Rattle.std.specs.Prelude.{◌≡◌, ◌+◌, ◌*◌, ◌/◌, ◌<◌, length};
ghost use Rattle.std.proofs.lemmas.List.Edits.{sets};
ghost use Rattle.boot_page.specs.Map.{row_is_good, map_is_good, count_in, rows_in};

use crate::places;
use fields::{numbers, ranges, rows};

// The widths of a row's fields: address, size, type.
pub const WIDTHS: [u64; 3] = [8, 8, 4];

// The most rows that a page has room for.
pub const MOST: usize = 128;

// Is row i not empty, does it end below 2^64, and is it apart from every earlier one?
#[tactic(auto, using(crate::proofs::MapLaws::row_empty, crate::proofs::MapLaws::row_wraps))]
fn is_good(rows: &[u64], i: usize) -> bool
    requires { i * 3 + 2 < length rows.now }
    ensures { result ≡ row_is_good rows.now i }
{
    let address = rows[i * 3];
    let size = rows[i * 3 + 1];
    if size == 0 || !ranges::sum_fits(address, size) {
        return false;
    }
    // the nearest first
    for j in (0..i).rev() {
        if !ranges::are_apart(address, size, rows[j * 3], rows[j * 3 + 1]) {
            return false;
        }
    }
    true
}

// Is every row good?
pub fn are_good(rows: &[u64]) -> bool
    ensures { result ≡ map_is_good rows.now }
{
    (0..rows.len() / 3).all(|i| is_good(rows, i))
}

// The rows of a page, as far as its count goes and the list does.
#[tactic(auto, using(crate::proofs::ReadingLaws::rows_read))]
pub(crate) fn read(list: &mut [u64], page: &[u8])
    ensures { list.new ≡ sets list.old 0 (rows_in page.now (length list.old)) }
{
    let count = numbers::byte_at(page, places::COUNT, 0);
    let n = (count as usize * 3).min(list.len());
    rows::read_rows(&mut list[..n], page, places::ROWS, &WIDTHS);
}
