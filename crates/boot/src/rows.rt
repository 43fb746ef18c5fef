// The rows of the guest's memory map, in one list of numbers, as the C functions take them.
ghost use Rattle.std.specs.Prelude.{◌≡◌, ◌+◌, ◌*◌, ◌<◌, length};
ghost use Rattle.boot.specs.Rows.{in_row, listed, width_in, numbers_in};

use crate::MapRows;
use guest::{Extent, GuestAddress, maps};

// Is row i, which the list has, of type 1, and do n bytes at an address lie in it? The two fields of `MapRows` come
// apart: the clause is over the numbers, of which the list has row i.
fn in_row(rows: &[u64], width: usize, i: usize, address: u64, n: u64) -> bool
    requires { i * width + 2 < length rows.now }
    ensures { result ≡ in_row width rows.now i address n }
{
    let row = Extent {
        at: GuestAddress(rows[i * width]),
        size: rows[i * width + 1],
    };
    rows[i * width + 2] == 1 && maps::in_range(row, address, n)
}

// Does a range lie in one row of type 1?
fn is_in_rows(rows: MapRows, range: Extent) -> bool
    ensures { result ≡ listed rows.entry.width rows.entry.numbers.now range }
{
    let MapRows { numbers, width } = rows;
    range.size == 0
        || (0..numbers.len() / width).any(|i| in_row(numbers, width, i, range.at.0, range.size))
}

// The same for rows that a boot may have or not: a boot without rows passes.
pub(crate) fn is_listed(rows: Option<MapRows>, range: Extent) -> bool
    ensures { result ≡ listed (width_in rows.entry) (numbers_in rows.entry) range }
{
    match rows {
        None => true,
        Some(rows) => is_in_rows(rows, range),
    }
}
