// A boot in which nothing is lost: kernel, line, ramdisk and boot data put into guest memory by one call. All checks
// come first, so that each piece is there at the end, or nothing is written.
#![tactic(auto, unfolding(answers::specs::Pick::pick, answers::specs::Tests::asked, crate::specs::Checks::given_limit, crate::specs::Checks::limit_by, crate::specs::Entering::enters_by, crate::specs::Entering::is_long, crate::specs::Entering::entry_of, crate::specs::Entering::has_entry, crate::specs::Entering::is_reached, crate::specs::Entering::pvh_entry, crate::specs::Entering::enters_by_tree, crate::specs::Pvh::module_numbers, crate::specs::Pvh::modules_of, crate::specs::Pvh::start_of, crate::specs::Rows::in_row, crate::specs::Rows::in_rows, crate::specs::Tree::line_in, crate::specs::ZeroPage::setup_by, crate::specs::ZeroPage::end_by, crate::specs::ZeroPage::ends_below, guest::specs::Maps::in_range))]

ghost use Rattle.std.specs.Prelude.{◌≤◌};

use guest::{GuestAddress, KernelLoaderResult};

mod kernel;
pub mod pieces;
pub mod putting;
pub mod pvh;
mod rows;
pub mod tree;
pub mod zero_page;

// A boot that was accepted: where the kernel was loaded, and the address at which it is entered.
#[derive(Clone, Copy)]
pub struct Booted {
    pub kernel: KernelLoaderResult,
    pub entry: GuestAddress,
}

// The rows of the guest's memory map: so many numbers each, of which the first three are address, size and type. The
// numbers are one list, as the C functions take them.
#[derive(Clone, Copy)]
pub(crate) struct MapRows<'a> {
    pub(crate) numbers: &'a [u64],
    pub(crate) width: usize,
    ghost wide: { 3 ≤ width },
}
