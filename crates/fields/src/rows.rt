// Rows of little-endian numbers at a place of a slice. A row is a list of the widths of its fields; the numbers of all
// rows are in one list, their fields in turn, as the C functions take them.
ghost use Rattle.std.specs.Prelude.{◌≡◌, length};
ghost use Rattle.std.proofs.lemmas.List.Edits.{sets};
ghost use Rattle.fields.specs.Numbers.{fits};
ghost use Rattle.fields.specs.Rows.{field_width, rows_bytes, rows_numbers, are_rows};

use crate::{numbers, ranges};

// The width of the i-th number: a width above 8 counts as 8, and without widths each is 0.
pub fn field_width(widths: &[u64], i: usize) -> u64
    ensures { result ≡ field_width widths.now i }
{
    if widths.is_empty() {
        return 0;
    }
    let field = i % widths.len();
    numbers::bytes_of(widths[field])
}

// Does the i-th number fit its field?
fn fits_field(widths: &[u64], i: usize, v: u64) -> bool
    ensures { result ≡ fits (field_width widths.now i) v }
{
    numbers::is_within(v, field_width(widths, i))
}

// Are these numbers whole rows, each number fitting its field?
pub fn are_rows(widths: &[u64], numbers: &[u64]) -> bool
    ensures { result ≡ are_rows widths.now numbers.now }
{
    numbers.len().is_multiple_of(widths.len())
        && numbers
            .iter()
            .enumerate()
            .all(|(i, v)| fits_field(widths, i, *v))
}

// Writes the numbers at a place, as far as the slice goes.
pub fn put_rows(s: &mut [u8], at: u64, widths: &[u64], numbers: &[u64])
    ensures { s.new ≡ sets s.old at (rows_bytes (field_width widths.now) numbers.now 0) }
{
    let end = s.len() as u64;
    let mut p = at;
    for (i, v) in numbers.iter().enumerate() {
        let width = field_width(widths, i);
        numbers::put_le(s, p, width, *v);
        p = ranges::sum_up_to(end, p, width);
    }
}

// Reads as many numbers at a place as the list takes.
pub fn read_rows(numbers: &mut [u64], s: &[u8], at: u64, widths: &[u64])
    ensures { numbers.new ≡ rows_numbers (field_width widths.now) (length numbers.old) s.now at 0 }
{
    let end = s.len() as u64;
    let mut p = at;
    for (i, v) in numbers.iter_mut().enumerate() {
        let width = field_width(widths, i);
        *v = numbers::read_le(s, p, width);
        p = ranges::sum_up_to(end, p, width);
    }
}
