// The search within bounds, wherever memory is: past what is placed, from multiple to multiple.
ghost use Rattle.std.specs.Prelude.{◌≡◌, ◌<◌};
ghost use Rattle.placing.specs.Placing.{ranges_in, First, Below, Above};
ghost use Rattle.placing.specs.Search.{met_of, FitsIn, Order};

use crate::Wanted;
use fields::ranges;
use guest::GuestAddress;

// What a search is for: n bytes at a multiple of a step, from `low` on and up to `high`.
#[derive(Clone, Copy)]
pub(crate) struct Bounds {
    pub low: u64,
    pub high: u64,
    pub step: u64,
    pub n: u64,
    ghost some: { 0 < step },
}

// The first range of the list that n bytes at an address meet: its start and its size.
fn first_met(placed: &[u64], a: u64, n: u64) -> Option<(u64, u64)>
    ensures { result ≡ met_of (ranges_in placed.now) a n }
{
    for range in placed.chunks_exact(2) {
        let (start, size) = (range[0], range[1]);
        if !ranges::are_apart(start, size, a, n) {
            return Some((start, size));
        }
    }
    None
}

// `first_in` and `last_in` stay two, each with a `while`: a range that is met moves the place by any amount, so that no
// iterator steps as they do, and they add and subtract in opposite directions: one function would be a `match` in each
// line.

// The lowest multiple of `step` from `low` on whose n bytes end at `high` at the latest and meet nothing in the list.
fn first_in(placed: &[u64], bounds: Bounds) -> Option<GuestAddress>
    ensures { First Below (FitsIn (ranges_in placed.now) bounds.low bounds.high bounds.step bounds.n) result }
{
    let Bounds {
        low,
        high,
        step,
        n,
        ..
    } = bounds;
    let last = high.checked_sub(n)?;
    let mut from = low;
    while let Some(a) = from.checked_next_multiple_of(step) {
        if last < a {
            return None;
        }
        match first_met(placed, a, n) {
            None => return Some(GuestAddress(a)),
            Some((start, size)) => from = ranges::sum_up_to(high, start, size),
        }
    }
    None
}

// The same, for the highest multiple.
fn last_in(placed: &[u64], bounds: Bounds) -> Option<GuestAddress>
    ensures { First Above (FitsIn (ranges_in placed.now) bounds.low bounds.high bounds.step bounds.n) result }
{
    let Bounds {
        low,
        high,
        step,
        n,
        ..
    } = bounds;
    let mut last = high.checked_sub(n)?;
    let mut a = last - last % step;
    while low <= a {
        match first_met(placed, a, n) {
            None => return Some(GuestAddress(a)),
            Some((start, _)) => {
                last = start.checked_sub(n)?;
                a = last - last % step;
            }
        }
    }
    None
}

// The lowest address in the bounds, or the highest.
#[tactic(auto, unfolding(crate::specs::Search::Order))]
pub(crate) fn in_bounds(wanted: Wanted, placed: &[u64], bounds: Bounds) -> Option<GuestAddress>
    ensures { First (Order wanted) (FitsIn (ranges_in placed.now) bounds.low bounds.high bounds.step bounds.n) result }
{
    match wanted {
        Wanted::Lowest => first_in(placed, bounds),
        Wanted::Highest => last_in(placed, bounds),
    }
}
