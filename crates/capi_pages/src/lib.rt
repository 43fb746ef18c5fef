// What a monitor links: the pages and start blocks that a kernel is started with, under C names.
#![tactic(auto, unfolding(answers::specs::Pick::pick, answers::specs::Tests::asked, start_info::specs::Answers::gate_number, boot_page::specs::Answers::built_number, boot_page::specs::Answers::read_number, boot_page::specs::Answers::read_values, crate::specs::Pages::header_left, crate::specs::Pages::read_sized))]

pub mod pages;
pub mod starts;
