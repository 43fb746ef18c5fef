// Memory maps: which ranges of a slice are memory. Lists of numbers are as the C functions take them.
ghost use Rattle.std.specs.Prelude.{◌≡◌, min, ◌≤◌, leb, get_or, Option};
ghost use Rattle.guest.specs.Maps.{most_ranges, in_range, in_ranges, ranges_of, good_range, good_map, floor_of};
ghost use Rattle.guest.specs.Maps.{whole_map, same_map, every_second, range_count, map_of};

use crate::{Extent, Map};
use fields::ranges;

// The most ranges that a map has.
pub(crate) const MOST: usize = 16;

// Do n bytes at an address lie in a range?
#[tactic(auto, unfolding(crate::specs::Maps::in_range))]
pub fn in_range(range: Extent, address: u64, n: u64) -> bool
    ensures { result ≡ in_range range.at.0 range.size address n }
{
    let start = range.at.0;
    let size = range.size;
    start <= address && ranges::within(size, address - start, n)
}

// Do they lie in one of the map's ranges?
pub(crate) fn in_map(map: &Map, address: u64, n: u64) -> bool
    ensures { result ≡ in_ranges (ranges_of map.now) address n }
{
    (0..map.len()).any(|i| in_range(map.range(i), address, n))
}

// Does a range start past the end of the one before it? The first may start anywhere.
#[tactic(auto, using(crate::proofs::MapsLaws::past_end), unfolding(crate::specs::Maps::floor_of))]
fn is_past(end: Option<u64>, start: u64) -> bool
    ensures { result ≡ leb (floor_of end) start }
{
    match end {
        None => true,
        Some(end) => end < start,
    }
}

// Does a range start past the end of the one before it, is it not empty, and does it lie within the slice?
#[tactic(auto, unfolding(crate::specs::Maps::good_range))]
fn is_good_range(len: u64, end: Option<u64>, range: Extent) -> bool
    ensures { result ≡ good_range len (floor_of end) range.at.0 range.size }
{
    is_past(end, range.at.0) && 0 < range.size && ranges::within(len, range.at.0, range.size)
}

// Is it a good map of a slice of this length? Not `all`: each range is tested against the end of the one before it,
// which the closure would have to carry.
pub fn is_good(len: u64, map: &Map) -> bool
    ensures { result ≡ good_map len map.now }
{
    if map.count > MOST as u64 {
        return false;
    }
    let mut end = None;
    for i in 0..map.len() {
        let range = map.range(i);
        if !is_good_range(len, end, range) {
            return false;
        }
        end = Some(range.at.0 + range.size);
    }
    true
}

// The map that is the whole of a slice of this length.
pub fn whole(len: u64) -> Map
    ensures { result ≡ whole_map len }
{
    let mut sizes = [0; 16];
    sizes[0] = len;
    Map {
        count: len.min(1),
        starts: [0; 16],
        sizes,
    }
}

// Are two maps the same, range by range? Not a derived `==`, since what is after the counted ranges makes no
// difference; an `impl PartialEq` would owe laws of an equivalence that nothing here uses, and be longer.
pub fn same(a: &Map, b: &Map) -> bool
    ensures { result ≡ same_map a.now b.now }
{
    a.count == b.count && (0..a.len()).all(|i| a.range(i) == b.range(i))
}

// A number of a list; past its end it is 0.
pub fn number_at(numbers: &[u64], at: usize) -> u64
    ensures { result ≡ get_or numbers.now at 0 }
{
    numbers.get(at).copied().unwrap_or(0)
}

// Sixteen numbers of a list, every second one from a place on, the first or the second. Not one with
// `capi::places::sixteen`, which takes every number: the definitions are two.
fn every_second(numbers: &[u64], from: usize) -> [u64; 16]
    requires { from ≤ 1 }
    ensures { result ≡ every_second most_ranges numbers.now from }
{
    let mut picked = [0; 16];
    for (i, slot) in picked.iter_mut().enumerate() {
        *slot = number_at(numbers, from + 2 * i);
    }
    picked
}

// How many ranges a list of so many numbers has.
#[tactic(auto, unfolding(crate::specs::Maps::range_count, answers::specs::Pick::pick))]
fn range_count(n: u64) -> u64
    ensures { result ≡ range_count n }
{
    if n.is_multiple_of(2) {
        (n / 2).min(17)
    } else {
        17
    }
}

// The map that a list of numbers is, as the C functions take it: start, size, start, size .. A list that has an odd
// length or too many ranges makes a map that is not good.
pub fn from_numbers(numbers: &[u64]) -> Map
    ensures { result ≡ map_of numbers.now }
{
    Map {
        count: range_count(numbers.len() as u64),
        starts: every_second(numbers, 0),
        sizes: every_second(numbers, 1),
    }
}
