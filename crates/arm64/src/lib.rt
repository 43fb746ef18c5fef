// arm64 Images of Linux: the plan of a load, made of the image, the memory and the base only, and its one part, the
// whole file. The crate `loads` copies it.
#![tactic(auto, unfolding(answers::specs::Pick::pick, answers::specs::Tests::asked))]

pub mod parts;
mod plan;
