// What every loader reads and writes: numbers, rows of numbers and tags at a place, ranges, rounding, the copy. Each
// function is total.
#![tactic(auto)]

pub mod copying;
pub mod numbers;
pub mod ranges;
pub mod rounding;
pub mod rows;
pub mod tags;
