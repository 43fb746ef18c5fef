// Where a piece can go in guest memory: the lowest, or the highest, address at which it fits. What is placed is one
// list of numbers, the start and the size of each range, as the C function `rekusoyen_raw_place` takes it.
#![tactic(auto)]

ghost use Rattle.std.specs.Prelude.{◌≡◌, max};
ghost use Rattle.placing.specs.Placing.{Fits, First, FirstFit, LastFit};
ghost use Rattle.placing.specs.Search.{Order, first_of};

use crate::search::Bounds;
use fields::ranges;
use guest::{GuestAddress, Memory};

mod search;

// Which address a search is for. Each variant finds an address, so it is no `Option` and no `Result`.
#[derive(Clone, Copy)]
pub enum Wanted {
    Lowest,
    Highest,
}

// The first of two addresses, each of which may be None: the lower one if the lowest is wanted, else the higher one.
#[tactic(auto, unfolding(crate::specs::Search::first_of, crate::specs::Search::is_before, answers::specs::Pick::pick))]
pub fn first_of(
    wanted: Wanted,
    best: Option<GuestAddress>,
    found: Option<GuestAddress>,
) -> Option<GuestAddress>
    ensures { result ≡ first_of wanted best found }
{
    match (best, found) {
        (Some(a), Some(b)) => {
            let first = match wanted {
                Wanted::Lowest => a.0.min(b.0),
                Wanted::Highest => a.0.max(b.0),
            };
            Some(GuestAddress(first))
        }
        _ => best.or(found),
    }
}

// The first address at which n bytes fit: of 0 bytes in the bounds, of others in one of the ranges of guest memory.
pub fn fit(
    wanted: Wanted,
    memory: &Memory,
    placed: &[u64],
    low: u64,
    high: u64,
    align: u64,
    n: u64,
) -> Option<GuestAddress>
    ensures { First (Order wanted) (Fits memory.now placed.now low high align n) result }
{
    let step = align.max(1);
    if n == 0 {
        let bounds = Bounds { low, high, step, n };
        return search::in_bounds(wanted, placed, bounds);
    }
    let top = high.min(memory.size);
    let mut best = None;
    for i in 0..memory.map.len() {
        let range = memory.map.range(i);
        let from = low.max(range.at.0);
        let end = ranges::sum_up_to(top, range.at.0, range.size);
        let bounds = Bounds {
            low: from,
            high: end,
            step,
            n,
        };
        let found = search::in_bounds(wanted, placed, bounds);
        best = first_of(wanted, best, found);
    }
    best
}

// `place` and `place_high` are `fit` at each `Wanted`: `rekusoyen_raw_place` and `rekusoyen_raw_place_high` call them,
// and their arguments are those of these C functions.

// First fit: the lowest address that is a multiple of `align`, of which 0 counts as 1, from `low` on, whose n bytes end
// at `high` at the latest, lie in one range of guest memory, and are apart from every range of `placed`; None if there
// is no such address. `placed` is start, size, start, size .. of any length; a single number at its end is ignored. A
// piece of 0 bytes needs no room and is apart from everything. With more memory the address may be lower.
#[tactic(auto, unfolding(crate::specs::Search::Order))]
pub fn place(
    memory: &Memory,
    placed: &[u64],
    low: u64,
    high: u64,
    align: u64,
    n: u64,
) -> Option<GuestAddress>
    ensures { FirstFit memory.now placed.now low high align n result }
{
    fit(Wanted::Lowest, memory, placed, low, high, align, n)
}

// Last fit: the highest such address. With more memory it may be higher.
#[tactic(auto, unfolding(crate::specs::Search::Order))]
pub fn place_high(
    memory: &Memory,
    placed: &[u64],
    low: u64,
    high: u64,
    align: u64,
    n: u64,
) -> Option<GuestAddress>
    ensures { LastFit memory.now placed.now low high align n result }
{
    fit(Wanted::Highest, memory, placed, low, high, align, n)
}
