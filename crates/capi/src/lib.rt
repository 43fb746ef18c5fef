// What a monitor links: loads of every format under C names, over numbers and the caller's slices. Each function
// returns a refusal's number, or 0 if the call is accepted. A list or buffer that must have a size and has another is
// refused before anything is done.
// The exports take what C has, numbers and slices, each by itself: so parameters that travel together (memory_size and
// map; format, flags, offset and highmem) and lists of rows stay. Each matches on the `Result` of its tests: an inner
// function with `?` would take all of the export's parameters again.
#![tactic(auto, unfolding(answers::specs::Pick::pick, answers::specs::Tests::asked, crate::specs::Loads::call_gate, crate::specs::Loads::header_gate, crate::specs::Loads::kind_number, crate::specs::Options::given_by, crate::specs::Options::format_code, crate::specs::Options::format_of, crate::specs::Saved::stage_code, crate::specs::Saved::stage_of, crate::specs::Saved::given_code, crate::specs::States::answer_numbers, crate::specs::States::pvh_of, crate::specs::States::answer_from, crate::specs::States::step_gate, crate::specs::Parts::with_bytes, crate::specs::Parts::part_values, crate::specs::Parts::plan_values, guest::specs::Answers::answer_number, guest::specs::Answers::answer_values, elf::specs::Load::note_number, elf::specs::Load::note_values, guest::specs::Answers::pvh_code, guest::specs::Answers::pvh_address, guest::specs::Answers::pvh_place, guest::specs::Answers::pvh_size))]

pub mod entries;
pub mod notes;
pub mod options;
pub mod places;
mod progress;
mod refusals;
pub mod results;
mod saved;
pub mod steps;
