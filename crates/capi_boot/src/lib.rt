// What a monitor links: whole boots under C names, planned and loaded; and the checks and places that a caller needs
// who puts the pieces into guest memory by itself.
#![tactic(auto, unfolding(answers::specs::Pick::pick, answers::specs::Tests::asked, crate::specs::Calls::boot_gate, crate::specs::Calls::limit_given, crate::specs::Calls::boot_number, crate::specs::Calls::boot_values, crate::specs::Alone::line_gate, crate::specs::Alone::room_number, start_info::specs::Answers::gate_number))]

pub mod alone;
mod calls;
pub mod places;
pub mod pvh;
pub mod tree;
pub mod zero_page;
