// Prints worked examples, a line each: `stdout` has what each is to say. Those that are proved are in the crate
// `cases`.
#![tactic(auto, unfolding(answers::specs::Pick::pick, answers::specs::Tests::asked))]

use std::io;

mod images;
mod lines;
mod loading;
mod pages;
mod printing;
mod starts;
mod stepping;
mod wording;

fn main(rt: HostRuntime) -> io::Result<()> {
    loading::print(&rt)?;
    stepping::print(&rt)?;
    lines::print(&rt)?;
    wording::print(&rt)?;
    pages::print(&rt)?;
    starts::print(&rt)
}
