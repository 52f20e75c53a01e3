//! Where the header of an index file has its numbers (docs/FORMATS.md).

/// The place of the number of the first free page, in bytes of the header's body.
pub const FREE_AT: usize = 23;

/// The place of the roots, 4 bytes each.
pub const ROOTS_AT: usize = 32;

/// A file with so many pages is full.
pub const FULL_PAGES: u32 = 1 << 30;
