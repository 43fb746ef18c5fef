// Slugs, the texts that a command line is built of: their bytes and blanks, keys and values, lists of values, where a
// whole line is split, and slugs put into a buffer. Each function answers on every input.
#![tactic(auto, unfolding(answers::specs::Pick::pick, answers::specs::Tests::asked))]

pub mod buffers;
pub mod bytes;
pub mod keys;
pub mod lists;
pub mod splitting;
pub mod trimming;
pub mod values;
