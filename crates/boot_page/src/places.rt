// The places of the fields of the page, by the Linux boot documents.

pub(crate) const PAGE: usize = 4096;

// how many rows the memory map has: one byte
pub(crate) const COUNT: u64 = 0x1E8;

// the setup header, of 123 bytes
pub(crate) const SETUP_HEADER: u64 = 0x1F1;

pub(crate) const HEADER_SIZE: usize = 123;

// fields of the setup header that a loader sets
pub(crate) const LOADER_TYPE: u64 = 0x210;

pub(crate) const RAMDISK: u64 = 0x218;

pub(crate) const RAMDISK_SIZE: u64 = 0x21C;

pub(crate) const COMMAND_LINE: u64 = 0x228;

// the rows of the memory map
pub(crate) const ROWS: u64 = 0x2D0;

// the loader type of a loader that has no number of its own
pub(crate) const UNDEFINED_LOADER: u64 = 0xFF;
